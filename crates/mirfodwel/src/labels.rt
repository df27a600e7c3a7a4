//! What goals are called.
ghost use Rattle.std.specs.Prelude.{◌≡◌, IfOk, map};
ghost use Rattle.mirfodwel.specs.Labels.{label_of, labels_of};

use std::alloc::Global;
use std::io;
use std::io::Write;

/// The lines of names, in order. In the place of an empty one stands its place, as it is what such a goal is called.
pub(crate) fn labels_of(alloc: Global, names: &[u8]) -> io::Result<Vec<Vec<u8>>>
    ensures { IfOk result (λ labels. map (λ label. label.items) labels.items ≡ labels_of names.now) }
{
    let mut labels = Vec::new(alloc);
    for (place, name) in names.split(|byte| *byte == b'\n').enumerate() {
        let label = label_of(alloc, place, name)?;
        labels.push(label)?;
    }
    Ok(labels)
}

fn label_of(alloc: Global, place: usize, name: &[u8]) -> io::Result<Vec<u8>>
    ensures { IfOk result (λ label. label.items ≡ label_of place name.now) }
{
    let mut label = Vec::new(alloc);
    if name.is_empty() {
        write!(label, "{place}")?;
    } else {
        label.extend_from_slice(name)?;
    }
    Ok(label)
}
