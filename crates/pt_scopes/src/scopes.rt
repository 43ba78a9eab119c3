ghost use Rattle.std.specs.Prelude.{◌≡◌, ◌++◌, [], ◌∷◌, length, option_map, slice_get, IfOk, IfErr, OnOk};
ghost use Rattle.pt_document.specs.declared.refusal.DocFault.TheVariants.{Memory};
ghost use Rattle.pt_scopes.specs.Scopes.{NetTree};
ghost use Rattle.pt_scopes.specs.Frames.{chain_at, AreScopes};

use crate::names::Names;
use pt_document::DocFault;
use std::alloc::{AllocError, Global};

/// What is gone through so far: the parameters that are seen in each entity and in each transparent composite, and which of
/// these frames are seen there, the nearest first.
#[derive(Drop)]
pub struct Scopes {
    pub frames: Vec<Names>,
    pub opaque: Vec<Vec<u32>>,
    pub transparent: Vec<Vec<u32>>,
}

/// What is seen in an entity or a transparent composite: its own parameters, and the chain of the frames that hold them and
/// those round them.
#[derive(Drop)]
pub struct Inside {
    pub own: Names,
    pub chain: Vec<u32>,
}

impl Scopes {
    /// Nothing is gone through.
    pub fn new(alloc: Global) -> Scopes
        ensures scopes { (net : NetTree) → AreScopes net result }
        ensures opaque { result.opaque.items ≡ [] }
        ensures transparent { result.transparent.items ≡ [] }
    {
        Scopes {
            frames: Vec::new(alloc),
            opaque: Vec::new(alloc),
            transparent: Vec::new(alloc),
        }
    }

    /// Which frames are seen in what these are the numbers of, where it is gone through.
    pub fn chain(&self, within: Option<u32>, parent: Option<u32>) -> Option<&[u32]>
        ensures { option_map (λ chain. chain.now) result ≡ chain_at self.now within parent }
    {
        match within {
            Some(number) => chain_of(&self.transparent, number),
            None => match parent {
                Some(number) => chain_of(&self.opaque, number),
                None => Some(&[]),
            },
        }
    }

    /// The next frame before those of a chain.
    pub fn chain_inside(&self, alloc: Global, chain: &[u32]) -> Result<Vec<u32>, DocFault>
        ensures ok { IfOk result (λ inside. inside.items ≡ length self.now.frames.items ∷ chain.now) }
        ensures err { IfErr result (λ e. e ≡ Memory) }
    {
        let mut inside = Vec::with_capacity(alloc, chain.len() + 1)?;
        inside.push(frame_number(self.frames.len())?)?;
        for number in chain {
            inside.push(*number)?;
        }
        Ok(inside)
    }

    /// Adds an entity with what is seen in it.
    pub fn add_opaque(&mut self, inside: Inside) -> Result<(), AllocError>
        ensures frames { OnOk result (self.new.frames.items ≡ self.old.frames.items ++ inside.own ∷ []) }
        ensures opaque { OnOk result (self.new.opaque.items ≡ self.old.opaque.items ++ inside.chain ∷ []) }
        ensures transparent { OnOk result (self.new.transparent ≡ self.old.transparent) }
    {
        self.frames.push(inside.own)?;
        self.opaque.push(inside.chain)?;
        Ok(())
    }

    /// Adds a transparent composite with what is seen in it.
    pub fn add_transparent(&mut self, inside: Inside) -> Result<(), AllocError>
        ensures frames { OnOk result (self.new.frames.items ≡ self.old.frames.items ++ inside.own ∷ []) }
        ensures opaque { OnOk result (self.new.opaque ≡ self.old.opaque) }
        ensures transparent { OnOk result (self.new.transparent.items ≡ self.old.transparent.items ++ inside.chain ∷ []) }
    {
        self.frames.push(inside.own)?;
        self.transparent.push(inside.chain)?;
        Ok(())
    }
}

fn chain_of(chains: &[Vec<u32>], number: u32) -> Option<&[u32]>
    ensures { option_map (λ chain. chain.now) result ≡ option_map (λ chain. chain.items) (slice_get chains.now number) }
{
    match chains.get(number as usize) {
        Some(chain) => Some(chain.as_slice()),
        None => None,
    }
}

/// The number of a frame; more than 2 to the 32 of them are told as want of memory.
fn frame_number(n: usize) -> Result<u32, DocFault>
    ensures ok { IfOk result (λ m. m ≡ n) }
    ensures err { IfErr result (λ e. e ≡ Memory) }
{
    u32::try_from(n).map_err(|_| DocFault::Memory)
}
