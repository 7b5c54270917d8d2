// Which layer of reading met a fault.
ghost use Rattle.std.specs.Prelude.{Some};
ghost use Rattle.faults.specs.LayerWords.{layer_word};

use std::fmt;

#[derive(Clone, Copy, PartialEq, Eq, Debug)]
pub enum Layer {
    // the bytes
    Text,
    // what the words of a sheet say
    Sheet,
    // the numbers of a book's file
    Book,
}

// One word.
impl fmt::Display for Layer {
    ghost output = { λ l. Some (layer_word l) };

    fn fmt<W: fmt::Write>(&self, f: &mut fmt::Formatter<W>) -> fmt::Result {
        match self {
            Layer::Text => write!(f, "text"),
            Layer::Sheet => write!(f, "sheet"),
            Layer::Book => write!(f, "book"),
        }
    }
}
