// The decimal numbers in a text, one after another. The methods are in the module below, since their contracts speak of it.
mod reading;

// What is still to be read of the text.
#[derive(Drop)]
pub struct Numbers<'a> {
    rest: &'a [u8],
}
