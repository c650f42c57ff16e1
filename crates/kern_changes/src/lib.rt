//! Changes of relations: what came to a content and what went, in place of the whole content. Rows
//! that come and go are settled to the change that they make; a content is kept as a bag, on which
//! changes are made; and each of several lists of contents owes what came and went since it was
//! last written. Each contract speaks of contents.
#![tactic(auto)]

mod content;
mod difference;
mod keyed;
pub mod laws;
mod owed;
mod settling;

pub use content::Content;
pub use difference::without;
pub use keyed::KeyedContent;
pub use owed::Owed;
pub use settling::settle;
