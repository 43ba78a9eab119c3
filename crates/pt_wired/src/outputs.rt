use pt_core::Source;
use pt_firing::Counts;
use std::alloc::{AllocError, Global};

/// How many outputs of each of so many children feed a channel, those between them counted too.
pub fn outputs_of(
    alloc: Global,
    children: usize,
    sources: &[Source],
) -> Result<Counts, AllocError> {
    let mut outputs = vec![in alloc; 0usize; children]?;
    for source in sources {
        note(&mut outputs, *source);
    }
    Ok(Counts::of(outputs))
}

/// A channel begins there: so many outputs the child has at least.
fn note(outputs: &mut [usize], source: Source) {
    if let Source::Output(child, port) = source
        && let Some(count) = outputs.get_mut(child as usize)
    {
        *count = (*count).max(port as usize + 1);
    }
}
