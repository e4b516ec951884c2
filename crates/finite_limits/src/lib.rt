//! Limits of presheaves, and images: products, equalizers, pullbacks and images, each with its universal property and its order.
#![tactic(auto)]

mod agreement;
mod all_pairs;
mod kept;
mod laws;
mod matches;
mod pairing;
mod values;

pub use agreement::equalizer;
pub use all_pairs::product;
pub use laws::limit_laws;
pub use matches::pullback;
pub use values::image;
