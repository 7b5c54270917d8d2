// Faults of bytes.
ghost use Rattle.std.specs.Prelude.{◌≡◌};
ghost use Rattle.faults.specs.Faults.{text_number, text_place, text_layer};

use crate::layer::Layer;
use thiserror::Error;

// A fault of the text itself, whatever its words would say.
//
// Each message here and in `SheetFault` says what is wrong, and after the semicolon
// what is wanted, since people mend their files by it.
#[derive(Clone, Copy, PartialEq, Eq, Debug, Error)]
pub enum TextFault {
    #[error("a byte that no sheet has; only line ends (byte 10) and printable ASCII (32 to 126) may stand here, no tab, no carriage return")]
    Byte { place: usize },
}

// `SheetFault` and the jobs' faults have methods of the same names. No trait has them:
// nothing takes a fault of any type, and each caller would have to import it.
impl TextFault {
    // The refusal's number.
    pub fn number(self) -> u8
        ensures { result ≡ text_number self }
    {
        match self {
            TextFault::Byte { .. } => 1,
        }
    }

    // Where in the text.
    pub fn place(self) -> usize
        ensures { result ≡ text_place self }
    {
        match self {
            TextFault::Byte { place } => place,
        }
    }

    pub fn layer(self) -> Layer
        ensures { result ≡ text_layer self }
    {
        match self {
            TextFault::Byte { .. } => Layer::Text,
        }
    }
}
