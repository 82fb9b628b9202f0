// Where reading stands: at the start of what is left of the text.
#[derive(Drop)]
pub struct Reader<'a> {
    pub rest: &'a [u8],
}
