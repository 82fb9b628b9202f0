// What holds of every head register, by its laws alone.
ghost use Rattle.registers.specs.Runs.{EndsInTime};

use crate::register::HeadRegister;

// Nothing is done: in every run, each operation has ended when it has made its stated accesses.
pub fn ends_in_time<R: HeadRegister>()
    ensures { EndsInTime R.HeadRegister.model }
{}
