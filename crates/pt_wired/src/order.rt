ghost use Rattle.std.specs.Prelude.{◌^◌, ◌<◌, length};

use pt_core::Source;
use std::alloc::{AllocError, Global};

/// The children of a composite, by what they wait for.
#[derive(Drop)]
struct Waits {
    /// The children that read a channel of each child, once for each channel.
    readers: Vec<Vec<u32>>,
    /// How many channels of other children each child waits for.
    missing: Vec<usize>,
}

impl Waits {
    /// Of so many children none waits.
    fn new(alloc: Global, children: usize) -> Result<Waits, AllocError> {
        let mut readers = Vec::with_capacity(alloc, children)?;
        for _ in 0..children {
            readers.push(Vec::new(alloc))?;
        }
        Ok(Waits {
            readers,
            missing: vec![in alloc; 0usize; children]?,
        })
    }

    /// A child waits for a channel of this source.
    fn add(&mut self, source: Source, reader: u32) -> Result<(), AllocError> {
        if let Source::Output(child, _) = source
            && let Some(readers) = self.readers.get_mut(child as usize)
            && let Some(missing) = self.missing.get_mut(reader as usize)
        {
            readers.push(reader)?;
            *missing = missing.saturating_add(1);
        }
        Ok(())
    }

    /// A child has given. Those that waited for it alone come next.
    fn release(&mut self, child: u32, order: &mut Vec<u32>) -> Result<(), AllocError> {
        if let Some(readers) = self.readers.get(child as usize) {
            for reader in readers {
                if is_last(&mut self.missing, *reader) {
                    order.push(*reader)?;
                }
            }
        }
        Ok(())
    }
}

/// Whether a child has waited for one channel more alone.
fn is_last(missing: &mut [usize], reader: u32) -> bool {
    match missing.get_mut(reader as usize) {
        Some(count) => {
            let last = *count == 1;
            *count = count.saturating_sub(1);
            last
        }
        None => false,
    }
}

/// The children of a composite in an order in which each stands behind those that it waits for. One that gives early answers waits for none.
/// Those of a loop are left out, and so is what waits for them. It takes time linear in the channels.
///
/// No contract speaks of it: it is a hint, and whoever takes it looks at each child, also at those that it leaves out.
pub fn order_of(
    alloc: Global,
    sources: &[Source],
    places: &[usize],
    nonstrict: &[bool],
) -> Result<Vec<u32>, AllocError>
    requires { length places.now < 2 ^ 32 }
{
    let mut waits = waits_of(alloc, sources, places, nonstrict)?;
    let mut order = first_of(alloc, &waits.missing, places.len())?;
    for k in 0..places.len() {
        if k < order.len() {
            let child = order[k];
            waits.release(child, &mut order)?;
        }
    }
    Ok(order)
}

/// What each child waits for.
fn waits_of(
    alloc: Global,
    sources: &[Source],
    places: &[usize],
    nonstrict: &[bool],
) -> Result<Waits, AllocError>
    requires { length places.now < 2 ^ 32 }
{
    let mut waits = Waits::new(alloc, places.len())?;
    let mut channel = 0usize;
    for child in 0..places.len() {
        let early = child < nonstrict.len() && nonstrict[child];
        if !early {
            add_places(&mut waits, sources, channel, places[child], child as u32)?;
        }
        channel = channel.saturating_add(places[child]);
    }
    Ok(waits)
}

/// A child waits for the channels at so many places from a number on.
fn add_places(
    waits: &mut Waits,
    sources: &[Source],
    from: usize,
    count: usize,
    child: u32,
) -> Result<(), AllocError> {
    for place in 0..count {
        if let Some(source) = sources.get(from.saturating_add(place)) {
            waits.add(*source, child)?;
        }
    }
    Ok(())
}

/// Those of so many children that wait for nothing.
fn first_of(alloc: Global, missing: &[usize], children: usize) -> Result<Vec<u32>, AllocError>
    requires { children < 2 ^ 32 }
{
    let mut first = Vec::with_capacity(alloc, children)?;
    for child in 0..children {
        if child < missing.len() && missing[child] == 0 {
            first.push(child as u32)?;
        }
    }
    Ok(first)
}
