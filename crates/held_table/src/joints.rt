//! The sets of several labels that a table names.

ghost use Rattle.std.specs.Prelude.{All, IfOk, IfSome, OnOk, length, slice_index, slice_index_or, slice_set, true};
ghost use Rattle.std.specs.Prelude.{◌+◌, ◌<◌, ◌≡◌, ◌≤◌};
ghost use Rattle.held_table.specs.Joints.{AreJoints, IsDefined, IsUsed};
ghost use Rattle.held_table.specs.working.Marking.{AreMarked, AreOnly, IsPlainLine, IsUnionOf};
ghost use Rattle.held_table.specs.working.Plains.{ArePlains};
ghost use Rattle.label_sets.specs.Sets.{IsPlain};

use crate::line::{Joint, Line};
use label_sets::{LabelSets, Parts};
use std::alloc::{AllocError, Allocator};

/// Returns the sets of several labels that `lines` name, and those that these consist of, in the order of their
/// numbers. `plains` has for each set of `store` the number under which it is shown.
pub(crate) fn joints_of<A: Allocator + Copy, B: Allocator>(
    alloc: A,
    store: &LabelSets<B>,
    plains: &[u32],
    lines: &[Line],
) -> Result<Vec<Joint, A>, AllocError>
    requires each { length plains.now ≡ length store.now.sets }
    requires plains { ArePlains store.now (length plains.now) plains.now }
    requires lines { All (IsPlainLine store.now (length plains.now)) lines.now }
    ensures joints { IfOk result (λ v. AreJoints store.now v.items) }
    ensures defined { IfOk result (λ v. All (λ l. IsDefined store.now v.items l.set) lines.now) }
    ensures needed { IfOk result (λ v. All (λ j. IsUsed lines.now v.items j.set) v.items) }
{
    let mut marks = marks_of(alloc, plains.len(), lines)?;
    let mut joints = Vec::new(alloc);
    // From the highest number down: what a set consists of has lower numbers.
    for set in (0..store.len()).rev() {
        if marks[set as usize] {
            if let Some(joint) = joint_of(store, plains, set) {
                marks[joint.first as usize] = true;
                marks[joint.second as usize] = true;
                joints.push(joint)?;
            }
        }
    }
    joints.reverse();
    Ok(joints)
}

/// Returns a mark for each of `count` sets: whether one of `lines` names it.
fn marks_of<A: Allocator>(
    alloc: A,
    count: usize,
    lines: &[Line],
) -> Result<Vec<bool, A>, AllocError>
    requires { All (λ l. l.set < count) lines.now }
    ensures each { IfOk result (λ v. length v.items ≡ count) }
    ensures marked { IfOk result (λ v. AreMarked lines.now v.items) }
    ensures only { IfOk result (λ v. AreOnly lines.now v.items) }
{
    let mut marks = vec![in alloc; false; count]?;
    for line in lines {
        marks[line.set as usize] = true;
    }
    Ok(marks)
}

/// Returns what `set`, which is shown under its own number, consists of, or `None` if it does not have several labels.
fn joint_of<A: Allocator>(store: &LabelSets<A>, plains: &[u32], set: u32) -> Option<Joint>
    requires each { length plains.now ≡ length store.now.sets }
    requires plains { ArePlains store.now (length plains.now) plains.now }
    requires set { set < length plains.now }
    requires plain { IsPlain store.now set }
    ensures { IsUnionOf store.now set result }
{
    if set <= store.labels() {
        return None;
    }
    match store.parts(set) {
        Parts::Both(first, second) => Some(Joint {
            set,
            first: plains[first as usize],
            second: plains[second as usize],
        }),
        _ => None,
    }
}
