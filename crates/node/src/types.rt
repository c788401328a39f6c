// A cache by value: the outermost struct.
use array_store::types::ArrayStore;
use cache::types::Cache;

/// A cache over a store by value.
#[derive(Drop)]
pub struct Node {
    pub(crate) cache: Cache<ArrayStore>,
}
