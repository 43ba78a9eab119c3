/// Where a channel of a composite begins: at an own input, or at an output of a child.
#[derive(Clone, Copy, PartialEq, Eq, Debug)]
pub enum Source {
    Own(u32),
    Output(u32, u32),
}
