// Where an object stands.
use crate::object::Object;

/// An object, and the index of the room in which it stands.
#[derive(Clone, Copy)]
pub struct Standing<'a> {
    pub room: u32,
    pub object: &'a Object,
}
