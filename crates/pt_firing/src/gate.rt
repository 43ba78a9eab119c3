/// Told of firings that threads make: the thread that makes a firing calls it first.
pub trait Gate {
    fn reach(&self, node: u32, firing: u64);
}

/// Lets every firing pass.
#[derive(Clone, Copy, Debug)]
pub struct OpenGate;

impl Gate for OpenGate {
    fn reach(&self, _node: u32, _firing: u64) {}
}
