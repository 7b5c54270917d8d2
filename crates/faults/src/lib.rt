// Why a text is refused: each fault with its number, its place and its layer.
#![tactic(auto)]

pub mod layer;
pub mod sheet;
pub mod text;

pub use layer::Layer;
pub use sheet::SheetFault;
pub use text::TextFault;
