//! Entries in the order of their keys: in a map, but for those that come behind all that there are.
ghost use Rattle.std.specs.Prelude.{◌≡◌, [], true, IfSome, IfNone, OnOk, OnErr};
ghost use Rattle.cga_order.specs.Key.{key_cmp};
ghost use Rattle.cga_queue.specs.Lines.{AllBefore, FirstCompares, FirstsCompare, IsPutIn, IsTakenOut, Rises};

use cga_fraction::NoMemory;
use cga_index::NodeId;
use cga_order::StampKey;
use cga_word::Mode;
use std::cmp::Ordering;
use std::collections::{BTreeMap, VecDeque};

fn is_behind_map(map: &BTreeMap<StampKey, NodeId>, key: &StampKey) -> bool
    ensures { result ≡ true → AllBefore key_cmp map.now.entries key.now }
{
    match map.last_key_value() {
        Some((last, _)) => last.cmp(key).is_lt(),
        None => true,
    }
}

fn is_behind_late(late: &VecDeque<(StampKey, NodeId)>, key: &StampKey) -> bool
    requires { Rises key_cmp late.now.items }
    ensures { result ≡ true → AllBefore key_cmp late.now.items key.now }
{
    match late.back() {
        Some(last) => last.0.cmp(key).is_lt(),
        None => true,
    }
}

/// Puts a number in at a key. Two comparisons are enough where it comes behind all, as it seldom does in the mode Depth,
/// where the map alone is used. Takes memory.
pub fn put_in(
    map: &mut BTreeMap<StampKey, NodeId>,
    late: &mut VecDeque<(StampKey, NodeId)>,
    key: StampKey,
    id: NodeId,
) -> Result<(), NoMemory>
    requires { Rises key_cmp late.old.items }
    ensures put { OnOk result (IsPutIn key_cmp map.old.entries late.old.items map.new.entries late.new.items key id) }
    ensures map { OnErr result (map.new.entries ≡ map.old.entries) }
    ensures late { OnErr result (late.new.items ≡ late.old.items) }
{
    let breadth = matches!(key.mode, Mode::Breadth);
    if breadth && is_behind_late(late, &key) && is_behind_map(map, &key) {
        late.push_back((key, id))?;
    } else {
        map.insert(key, id)?;
    }
    Ok(())
}

/// How the first key of a map compares with another, where none comes last.
fn cmp_first(map: &BTreeMap<StampKey, NodeId>, key: &StampKey) -> Ordering
    ensures { FirstCompares key_cmp map.now.entries key.now result }
{
    match map.first_key_value() {
        Some((first, _)) => first.cmp(key),
        None => Ordering::Greater,
    }
}

fn cmp_firsts(map: &BTreeMap<StampKey, NodeId>, late: &VecDeque<(StampKey, NodeId)>) -> Ordering
    ensures { FirstsCompare key_cmp map.now.entries late.now.items result }
{
    match late.front() {
        Some(other) => cmp_first(map, &other.0),
        None => Ordering::Less,
    }
}

/// Takes the entry of least key out of both. None where there is none.
pub fn take_out(
    map: &mut BTreeMap<StampKey, NodeId>,
    late: &mut VecDeque<(StampKey, NodeId)>,
) -> Option<(StampKey, NodeId)>
    requires { Rises key_cmp late.old.items }
    ensures taken { IfSome result (λ p. IsTakenOut key_cmp map.old.entries late.old.items map.new.entries late.new.items p) }
    ensures none { IfNone result ((map.old.entries ≡ []) × (late.old.items ≡ [])) }
    ensures map { IfNone result (map.new.entries ≡ map.old.entries) }
    ensures late { IfNone result (late.new.items ≡ late.old.items) }
{
    match cmp_firsts(map, late) {
        Ordering::Less => map.pop_first(),
        Ordering::Greater => late.pop_front(),
        Ordering::Equal => {
            let _other = late.pop_front();
            map.pop_first()
        }
    }
}
