//! Reads each field of the dump in `dumps`, which has one sub-record of every kind.

ghost use Rattle.std.specs.Prelude.{List, slice_index, ℕ, ◌<◌};
ghost use Rattle.hprof_grammar.specs.SubRecord.{Class, Instance, ObjectArray, PrimitiveArray, Root};
ghost use Rattle.hprof_grammar.specs.SubRecord.SubRecord.{class_dump, instance_dump, root};
ghost use Rattle.hprof_grammar.specs.SubRecord.SubRecord.{object_array_dump, primitive_array_dump};
ghost use Rattle.hprof_grammar.specs.Standing.{HeaderStands, LoadStands, Stands, StringStands};

use crate::dumps::{WITH_EIGHT, WITH_FOUR};
use hprof_grammar::{Ids, ObjectKind, ReadRefusal, RootKind, Team, TypedValue, Values, View, read};
use std::alloc::Global;
use std::process::Abort;
use std::test::Fail;
use std::thread::Threads;

/// Returns numbers of the header, of the string record at `string` and of the loaded class at `loaded`, in the order of
/// the manual.
fn record_numbers(view: &View<'_>, string: u32, loaded: u32) -> [u64; 8]
    requires header { (time : ℕ) × HeaderStands view.now time }
    requires string { (time id : ℕ) × (text : List ℕ) × StringStands view.now string time id text }
    requires loaded { (time serial class stack name : ℕ)
        × LoadStands view.now loaded time serial class stack name }
{
    [
        view.header_time(),
        u64::from(view.record_time(string)),
        u64::from(view.record_length(string)),
        view.string_id(string),
        u64::from(view.loaded_class_serial(loaded)),
        view.loaded_class_id(loaded),
        u64::from(view.loaded_class_stack_trace(loaded)),
        view.loaded_class_name(loaded),
    ]
}

/// Returns the numbers of the class dump at `at` up to its instance size, in the order of the manual.
fn class_numbers(view: &View<'_>, at: u32) -> [u64; 9]
    requires { (c : Class) × Stands view.now at (class_dump c) }
{
    [
        view.object_id(at),
        u64::from(view.stack_trace(at)),
        view.superclass(at),
        view.loader(at),
        view.signers(at),
        view.protection_domain(at),
        view.reserved(at),
        view.reserved_too(at),
        u64::from(view.instance_size(at)),
    ]
}

/// Returns the label, the type code and the last byte of `value`, or `None` if `value` has no byte.
fn labelled(value: TypedValue<'_>) -> Option<(u64, u8, u8)> {
    let last = value.value.last()?;
    Some((value.label, value.type_code, *last))
}

/// Returns what `labelled` returns of the two values, or `None` if `values` does not have exactly two or one of them
/// has no byte.
fn two_values(values: Values<'_>) -> Option<[(u64, u8, u8); 2]> {
    let mut values = values;
    if values.len() != 2 {
        return None;
    }
    let first = labelled(values.next()?)?;
    let second = labelled(values.next()?)?;
    values.is_empty().then_some([first, second])
}

/// Returns the two identifiers, or `None` if `ids` does not have exactly two.
fn two_ids(ids: Ids<'_>) -> Option<[u64; 2]> {
    let mut ids = ids;
    if ids.len() != 2 {
        return None;
    }
    Some([ids.next()?, ids.next()?])
}

/// Returns the identifiers that `View::leading_ids` yields for the class dump at `at`, or `None` if they are not four.
fn followed_ids(view: &View<'_>, at: u32) -> Option<[u64; 4]>
    requires { (c : Class) × Stands view.now at (class_dump c) }
{
    let mut ids = view.leading_ids(at);
    let followed = [ids.next()?, ids.next()?, ids.next()?, ids.next()?];
    ids.is_empty().then_some(followed)
}

/// Returns the names and type codes of a class's two instance fields, or `None` if the class does not have exactly two.
fn two_members(view: &View<'_>, at: u32) -> Option<[(u64, u8); 2]>
    requires { (c : Class) × Stands view.now at (class_dump c) }
{
    let mut members = view.members(at);
    let first = members.next()?;
    let second = members.next()?;
    members.is_empty().then_some([
        (first.name, first.type_code),
        (second.name, second.type_code),
    ])
}

/// Reads the instance dump at `at`: its kind, its class, and the bytes of its field values.
fn instance_fields<'a>(view: &View<'a>, at: u32) -> (ObjectKind, u64, &'a [u8])
    requires { (i : Instance) × Stands view.now at (instance_dump i) }
{
    (
        view.kind(at),
        view.instance_class(at),
        view.instance_values(at),
    )
}

/// Reads the object array dump at `at`: its kind, its class, and its two elements, or `None` if there are not exactly
/// two.
fn object_array_fields(view: &View<'_>, at: u32) -> (ObjectKind, u64, Option<[u64; 2]>)
    requires { (a : ObjectArray) × Stands view.now at (object_array_dump a) }
{
    (
        view.kind(at),
        view.array_class(at),
        two_ids(view.array_elements(at)),
    )
}

/// Returns the identifiers at the offsets 0 and 1 of an instance's values, or `None` if the values have too few bytes.
fn first_identifiers(view: &View<'_>, at: u32) -> Option<[u64; 2]>
    requires { (i : Instance) × Stands view.now at (instance_dump i) }
{
    let values = view.instance_values(at);
    if values.len() <= view.id_size() as usize {
        return None;
    }
    Some([view.identifier_at(values, 0), view.identifier_at(values, 1)])
}

/// Reads the primitive array dump at `at`: its kind, the type code of its elements, their number, and their bytes.
fn primitive_array_fields<'a>(view: &View<'a>, at: u32) -> (ObjectKind, u8, u32, &'a [u8])
    requires { (a : PrimitiveArray) × Stands view.now at (primitive_array_dump a) }
{
    (
        view.kind(at),
        view.element_type(at),
        view.element_count(at),
        view.packed_elements(at),
    )
}

/// The fields of a root: its kind, its object, its reference, its thread, its frame and its stack trace. Each of the
/// last four is `None` if a root of this kind does not have it.
type RootNumbers = (
    RootKind,
    u64,
    Option<u64>,
    Option<u32>,
    Option<u32>,
    Option<u32>,
);

/// Returns the fields of the root at `at`.
fn root_numbers(view: &View<'_>, at: u32) -> RootNumbers
    requires { (r : Root) × Stands view.now at (root r) }
{
    let kind = view.root_kind(at);
    let reference = match kind {
        RootKind::JniGlobal => Some(view.root_reference(at)),
        _ => None,
    };
    let thread = match kind {
        RootKind::JniLocal
        | RootKind::JavaFrame
        | RootKind::NativeStack
        | RootKind::ThreadBlock
        | RootKind::ThreadObject => Some(view.root_thread(at)),
        _ => None,
    };
    let frame = match kind {
        RootKind::JniLocal | RootKind::JavaFrame => Some(view.root_frame(at)),
        _ => None,
    };
    let trace = match kind {
        RootKind::ThreadObject => Some(view.root_stack_trace(at)),
        _ => None,
    };
    (kind, view.object_id(at), reference, thread, frame, trace)
}

/// The places of a dump's parts: strings, loaded classes, objects, roots.
type PlacesOfParts = [&'static [u32]; 4];

/// The dump with each size of identifiers: its bytes, that size, and the places of its parts.
const PLACES: [(&[u8], u8, PlacesOfParts); 2] = [
    (
        &WITH_FOUR,
        4,
        [
            &[31],
            &[45],
            &[79, 162, 184, 209],
            &[229, 234, 243, 256, 269, 278, 283, 292, 297],
        ],
    ),
    (
        &WITH_EIGHT,
        8,
        [
            &[31],
            &[49],
            &[91, 226, 260, 301],
            &[325, 334, 351, 368, 385, 398, 407, 420, 429],
        ],
    ),
];

/// Returns the size of identifiers of the dump `bytes`, and whether `places` are the places of its parts.
fn placed_so<T: Threads + Sync>(
    rt: &T,
    alloc: Global,
    bytes: &[u8],
    places: PlacesOfParts,
) -> Result<(u8, bool), ReadRefusal> {
    let dump = read(&Team::new(rt, 1), alloc, bytes)?;
    let found = [dump.strings(), dump.loaded(), dump.objects(), dump.roots()];
    Ok((dump.id_size(), found == places))
}

#[test]
fn places(rt: HostRuntime) -> Result<(), Fail> {
    for (bytes, id_size, places) in PLACES {
        assert_eq!(rt;
            placed_so(&rt, rt.alloc(), bytes, places)?,
            (id_size, true),
            "identifiers of {id_size} bytes"
        );
    }
    Ok(())
}

/// Compares the fields of the header, of the string at `string` and of the loaded class at `loaded` with the expected
/// ones. `length` is the expected length of the string's body.
fn has_records<R: Abort>(rt: &R, view: &View<'_>, string: u32, loaded: u32, length: u64)
    requires header { (time : ℕ) × HeaderStands view.now time }
    requires string { (time id : ℕ) × (text : List ℕ) × StringStands view.now string time id text }
    requires loaded { (time serial class stack name : ℕ)
        × LoadStands view.now loaded time serial class stack name }
{
    assert_eq!(rt;
        record_numbers(view, string, loaded),
        [4_294_967_298, 21, length, 1, 7, 0x100, 8, 1]
    );
    assert_eq!(rt; view.string_text(string), b"A".as_slice());
}

#[test]
fn records(rt: HostRuntime) {
    has_records(&rt, &View::new(&WITH_FOUR, 4), 31, 45, 5);
    has_records(&rt, &View::new(&WITH_EIGHT, 8), 31, 49, 9);
}

/// Compares the fields of the class dump at `at` with the expected ones.
fn has_class<R: Abort>(rt: &R, view: &View<'_>, at: u32)
    requires { (c : Class) × Stands view.now at (class_dump c) }
{
    assert_eq!(rt; view.kind(at), ObjectKind::Class);
    assert_eq!(rt;
        class_numbers(view, at),
        [0x100, 9, 0x200, 0x201, 0x202, 0x203, 0x204, 0x205, 12]
    );
    assert_eq!(rt; followed_ids(view, at), Some([0x200, 0x201, 0x202, 0x203]));
    let values = [view.constants(at), view.statics(at)].map(two_values);
    assert_eq!(rt;
        values,
        [
            Some([(1, 5, 0x41), (2, 2, 0x06)]),
            Some([(3, 10, 7), (4, 2, 0x07)])
        ]
    );
    assert_eq!(rt; two_members(view, at), Some([(5, 2), (6, 4)]));
}

/// Compares the fields of the instance and of both arrays with the expected ones. `instance`, `objects` and `shorts`
/// are their places, `values` the expected values of the instance.
fn has_objects<R: Abort>(
    rt: &R,
    view: &View<'_>,
    instance: u32,
    objects: u32,
    shorts: u32,
    values: &[u8],
)
    requires instance { (i : Instance) × Stands view.now instance (instance_dump i) }
    requires objects { (a : ObjectArray) × Stands view.now objects (object_array_dump a) }
    requires shorts { (a : PrimitiveArray) × Stands view.now shorts (primitive_array_dump a) }
{
    assert_eq!(rt;
        instance_fields(view, instance),
        (ObjectKind::Instance, 0x100, values)
    );
    assert_eq!(rt; first_identifiers(view, instance), Some([0x302, 0x30201]));
    assert_eq!(rt;
        object_array_fields(view, objects),
        (ObjectKind::ObjectArray, 0x101, Some([0x301, 0]))
    );
    assert_eq!(rt;
        primitive_array_fields(view, shorts),
        (
            ObjectKind::PrimitiveArray,
            9,
            3,
            [0, 1, 0, 2, 0, 3].as_slice()
        )
    );
}

#[test]
fn objects(rt: HostRuntime) {
    let with_four = View::new(&WITH_FOUR, 4);
    has_class(&rt, &with_four, 79);
    has_objects(&rt, &with_four, 162, 184, 209, &[0, 0, 3, 2, 1]);
    let with_eight = View::new(&WITH_EIGHT, 8);
    has_class(&rt, &with_eight, 91);
    has_objects(
        &rt,
        &with_eight,
        226,
        260,
        301,
        &[0, 0, 0, 0, 0, 0, 3, 2, 1],
    );
}

const ROOTS: [RootNumbers; 9] = [
    (RootKind::Unknown, 0x100, None, None, None, None),
    (RootKind::JniGlobal, 0x301, Some(0x401), None, None, None),
    (RootKind::JniLocal, 0x301, None, Some(13), Some(14), None),
    (RootKind::JavaFrame, 0x301, None, Some(15), Some(16), None),
    (RootKind::NativeStack, 0x301, None, Some(17), None, None),
    (RootKind::StickyClass, 0x301, None, None, None, None),
    (RootKind::ThreadBlock, 0x301, None, Some(18), None, None),
    (RootKind::MonitorUsed, 0x301, None, None, None, None),
    (
        RootKind::ThreadObject,
        0x301,
        None,
        Some(19),
        None,
        Some(20),
    ),
];

/// Compares the fields of the roots at `places` with `ROOTS`, in order.
fn has_roots<R: Abort>(rt: &R, view: &View<'_>, places: &[u32; 9])
    requires { (k : ℕ) → k < 9 → (r : Root) × Stands view.now (slice_index places.now k) (root r) }
{
    for k in 0..9 {
        assert_eq!(rt; root_numbers(view, places[k]), ROOTS[k]);
    }
}

#[test]
fn roots(rt: HostRuntime) {
    has_roots(
        &rt,
        &View::new(&WITH_FOUR, 4),
        &[229, 234, 243, 256, 269, 278, 283, 292, 297],
    );
    has_roots(
        &rt,
        &View::new(&WITH_EIGHT, 8),
        &[325, 334, 351, 368, 385, 398, 407, 420, 429],
    );
}
