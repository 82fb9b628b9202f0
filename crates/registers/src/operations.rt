// Which operation each of the sixteen processors is at, for any register: `None` is an idle processor. The refusals 13
// to 16 are decided here and nowhere else. No struct holds the array: of a generic one the derived `Clone`, which the
// registers derive theirs from, is not proved (its answer on an error stays open).
ghost use Rattle.std.specs.Prelude.{◌≡◌, is_some};
ghost use Rattle.registers.specs.Refusals.{refuse_read, refuse_write};
ghost use Rattle.registers.specs.Operations.{at, checked, operation_gives, under_way, Begins, Takes};

use crate::answers::Refusal;

// What a processor is at: 13.
fn operation_of<A: Copy>(operations: &[Option<A>; 16], processor: u32) -> Result<Option<A>, Refusal>
    ensures { result ≡ operation_gives processor (at operations.now processor) }
{
    operations
        .get(processor as usize)
        .copied()
        .ok_or(Refusal::NoSuchProcessor)
}

// Whether a processor may begin a read: 13, 14.
pub fn check_read<A: Copy>(operations: &[Option<A>; 16], processor: u32) -> Result<(), Refusal>
    ensures { result ≡ checked (refuse_read processor (is_some (at operations.now processor))) }
{
    if operation_of(operations, processor)?.is_some() {
        return Err(Refusal::Busy);
    }
    Ok(())
}

// Whether a processor may begin a write of n: 13, 14, 15.
pub fn check_write<A: Copy>(
    operations: &[Option<A>; 16],
    processor: u32,
    n: u32,
    bound: u32,
) -> Result<(), Refusal>
    ensures { result ≡ checked (refuse_write bound processor n (is_some (at operations.now processor))) }
{
    check_read(operations, processor)?;
    if !(1..=bound).contains(&n) {
        return Err(Refusal::OutOfRange);
    }
    Ok(())
}

// The operation that a processor is at, to go on with: 13, 16.
pub fn find_under_way<A: Copy>(operations: &[Option<A>; 16], processor: u32) -> Result<A, Refusal>
    ensures { result ≡ under_way processor (at operations.now processor) }
{
    operation_of(operations, processor)?.ok_or(Refusal::Idle)
}

// A processor begins a read: 13, 14.
pub fn begin_read<A: Copy>(
    operations: &mut [Option<A>; 16],
    processor: u32,
    read: A,
) -> Result<(), Refusal>
    ensures { Begins (refuse_read processor (is_some (at operations.old processor))) processor read operations.old result operations.new }
{
    check_read(operations, processor)?;
    operations[processor as usize] = Some(read);
    Ok(())
}

// A processor begins a write of n: 13, 14, 15.
pub fn begin_write<A: Copy>(
    operations: &mut [Option<A>; 16],
    processor: u32,
    n: u32,
    bound: u32,
    write: A,
) -> Result<(), Refusal>
    ensures { Begins (refuse_write bound processor n (is_some (at operations.old processor))) processor write operations.old result operations.new }
{
    check_write(operations, processor, n, bound)?;
    operations[processor as usize] = Some(write);
    Ok(())
}

// The operation that a processor was at, which it is at no more: 13, 16.
pub fn take_under_way<A: Copy>(
    operations: &mut [Option<A>; 16],
    processor: u32,
) -> Result<A, Refusal>
    ensures { Takes processor (at operations.old processor) operations.old result operations.new }
{
    let operation = find_under_way(operations, processor)?;
    operations[processor as usize] = None;
    Ok(operation)
}
