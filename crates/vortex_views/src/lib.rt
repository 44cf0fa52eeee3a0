//! Arrow's and Umbra's 16-byte views of texts and byte strings.
#![tactic(auto)]

pub mod builder;
mod byte_words;
pub mod collect;
pub mod laws;
pub mod literals;
pub mod ordered;
pub mod places;
pub mod resolved;
pub mod values;
pub mod view;
mod words;

pub use builder::ViewsBuilder;
pub use collect::{ByteString, collect_views};
pub use literals::{LongPrefix, LongWhole, ShortPrefix, ShortWhole, ValueTest, WholeEnd};
pub use ordered::{ConstantBytes, Row, WordsOfBytes, compare, equal};
pub use places::{Place, Places, gather};
pub use resolved::{ResolvedViews, check_views, fits};
pub use values::BinaryViews;
pub use view::BinaryView;
