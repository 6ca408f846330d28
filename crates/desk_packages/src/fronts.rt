//! Where the last part of a text begins.

ghost use Rattle.desk_packages.specs.Fronts.{IsFrontEnd};

/// How many bytes of a text stand before its last separator; 0 where it has none.
pub fn front_end(text: &[u8], separator: u8) -> usize
    ensures { IsFrontEnd separator text.now result }
{
    let mut end = text.len();
    while end > 0 {
        end -= 1;
        if text[end] == separator {
            return end;
        }
    }
    0
}
