use pt_document::Director;

/// What directs an opaque composite: the director that a property of it names, or Modal, where it is a Modal entity.
#[derive(Clone, Copy, Debug, PartialEq, Eq)]
pub enum Directing {
    By(Director),
    Modal,
}
