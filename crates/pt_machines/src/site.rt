use pt_frames::Frames;
use pt_machine_parts::ModalEntity;
use pt_scopes::EntityValues;
use pt_typing::Typing;

/// A Modal entity in its net: its number, its values, the parameters that are seen in the net, and the types of its ports.
pub(crate) struct Site<'a> {
    pub(crate) number: u32,
    pub(crate) modal: ModalEntity<'a>,
    pub(crate) values: &'a EntityValues,
    pub(crate) frames: &'a Frames,
    pub(crate) typing: &'a Typing,
}

// By hand, so that letting go of one is one call in the proofs above.
impl<'a> Drop for Site<'a> {
    fn drop(self) {
        let Site {
            number: _,
            modal: _,
            values: _,
            frames: _,
            typing: _,
        } = self;
    }
}
