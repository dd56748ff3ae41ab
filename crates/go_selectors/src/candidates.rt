//! A search for all selectors at once: each layer notes the paths that end in it.
ghost use Rattle.std.specs.Prelude.{◌≡◌, ◌++◌, Bool, true, false, None, [], Option, IfOk, OnOk};
ghost use Rattle.go_base.specs.Gathered.{gather};
ghost use Rattle.go_model.specs.declared.types.names.TypeName.{TypeName};
ghost use Rattle.go_model.specs.types.Selectors.{field_ending, declared_ending, method_ending, steps, endings, is_defined_pointer};
ghost use Rattle.go_selectors.specs.Candidates.{signature_of, called_at, called_method, candidate_at, Puts, Removes, NotesOne, Notes, Hides, HoldOwnMethods, HoldMethodSet};

use crate::candidate::Candidate;
use crate::lookup::Lookup;
use crate::members::Members;
use crate::seen::Seen;
use crate::spot::Spot;
use crate::steps::push_steps;
use go_base::memory::NoMemory;
use go_model::types::names::Sel;
use go_model::types::package::MethodOf;
use go_model::types::table::TypeTable;
use go_model::types::term::{Field, Method, Signature, Term};
use std::alloc::Global;
use std::collections::BTreeMap;

fn insert<'a>(
    candidates: &mut BTreeMap<Sel, Candidate<'a>>,
    sel: Sel,
    candidate: Candidate<'a>,
) -> Result<Option<Candidate<'a>>, NoMemory>
    ensures puts { OnOk result (Puts candidates.old candidates.new sel candidate.entry) }
    ensures before { IfOk result (λ before. before ≡ candidate_at candidates.old sel) }
{
    let before = candidates.insert(sel, candidate)?;
    Ok(before)
}

// Gives what was known of the selector.
fn put<'a>(
    alloc: Global,
    candidates: &mut BTreeMap<Sel, Candidate<'a>>,
    sel: &Sel,
    candidate: Candidate<'a>,
) -> Result<Option<Candidate<'a>>, NoMemory>
    ensures puts { OnOk result (Puts candidates.old candidates.new sel.now candidate.entry) }
    ensures before { IfOk result (λ before. before ≡ candidate_at candidates.old sel.now) }
{
    let copied = sel.copy(alloc)?;
    let before = insert(candidates, copied, candidate)?;
    Ok(before)
}

// One more path of a selector ends at this depth.
fn note<'a>(
    alloc: Global,
    candidates: &mut BTreeMap<Sel, Candidate<'a>>,
    sel: &Sel,
    depth: u64,
    called: Option<&'a Signature>,
) -> Result<(), NoMemory>
    ensures { OnOk result (NotesOne depth (signature_of called.entry) candidates.old candidates.new sel.now) }
{
    let known = put(alloc, candidates, sel, Candidate::new(depth, called))?;
    match known {
        None => Ok(()),
        Some(before) => {
            if before.depth() != depth {
                put(alloc, candidates, sel, before)?;
                return Ok(());
            }
            put(alloc, candidates, sel, Candidate::new(depth, None))?;
            Ok(())
        }
    }
}

fn note_fields<'a>(
    alloc: Global,
    candidates: &mut BTreeMap<Sel, Candidate<'a>>,
    depth: u64,
    fields: &'a [Field],
) -> Result<(), NoMemory>
    ensures { OnOk result ((through : Bool) → Notes depth candidates.old candidates.new (λ s. gather (field_ending s through) fields.now)) }
{
    for field in fields {
        note(alloc, candidates, &field.sel, depth, None)?;
    }
    Ok(())
}

// The method, where it can be called on the type itself.
fn called<'a>(pointer: bool, through: bool, signature: &'a Signature) -> Option<&'a Signature>
    ensures { signature_of result ≡ called_method pointer through signature.now }
{
    if pointer && !through {
        return None;
    }
    Some(signature)
}

fn note_declared<'a>(
    alloc: Global,
    candidates: &mut BTreeMap<Sel, Candidate<'a>>,
    depth: u64,
    through: bool,
    methods: &'a [MethodOf],
) -> Result<(), NoMemory>
    ensures { OnOk result ((owner : Option TypeName) → Notes depth candidates.old candidates.new (λ s. gather (declared_ending owner s through) methods.now)) }
{
    for method in methods {
        let found = called(method.pointer, through, &method.signature);
        note(alloc, candidates, &method.sel, depth, found)?;
    }
    Ok(())
}

fn note_methods<'a>(
    alloc: Global,
    candidates: &mut BTreeMap<Sel, Candidate<'a>>,
    depth: u64,
    methods: &'a [Method],
) -> Result<(), NoMemory>
    ensures { OnOk result ((through : Bool) → Notes depth candidates.old candidates.new (λ s. gather (method_ending s through) methods.now)) }
{
    for method in methods {
        note(
            alloc,
            candidates,
            &method.sel,
            depth,
            Some(&method.signature),
        )?;
    }
    Ok(())
}

fn note_spot<'a, T: TypeTable>(
    alloc: Global,
    types: &Lookup<'a, T>,
    candidates: &mut BTreeMap<Sel, Candidate<'a>>,
    depth: u64,
    spot: &Spot<'a>,
    all: &mut Vec<Spot<'a>>,
) -> Result<(), NoMemory>
    ensures notes { OnOk result (Notes depth candidates.old candidates.new (λ s. endings (T.lookup types.now.table.now) s spot.now)) }
    ensures steps { OnOk result (all.new.items ≡ all.old.items ++ steps (T.lookup types.now.table.now) spot.now) }
{
    let members = types.members(spot.term());
    note_fields(alloc, candidates, depth, members.fields)?;
    note_declared(alloc, candidates, depth, spot.through(), members.declared)?;
    note_methods(alloc, candidates, depth, members.methods)?;
    push_steps(spot.through(), members.fields, all)?;
    Ok(())
}

// Notes the paths that end in a layer, and adds the spots one embedded field further.
fn note_layer<'a, T: TypeTable>(
    alloc: Global,
    types: &Lookup<'a, T>,
    candidates: &mut BTreeMap<Sel, Candidate<'a>>,
    depth: u64,
    layer: &Vec<Spot<'a>>,
    all: &mut Vec<Spot<'a>>,
) -> Result<(), NoMemory>
    ensures notes { OnOk result (Notes depth candidates.old candidates.new (λ s. gather (endings (T.lookup types.now.table.now) s) layer.now.items)) }
    ensures steps { OnOk result (all.new.items ≡ all.old.items ++ gather (steps (T.lookup types.now.table.now)) layer.now.items) }
{
    for spot in layer {
        note_spot(alloc, types, candidates, depth, spot, all)?;
    }
    Ok(())
}

fn hide(candidates: &mut BTreeMap<Sel, Candidate<'_>>, sel: &Sel)
    ensures { Removes candidates.old candidates.new sel.now }
{
    let _hidden = candidates.remove(sel);
}

fn hide_fields(candidates: &mut BTreeMap<Sel, Candidate<'_>>, fields: &[Field])
    ensures { (through : Bool) → Hides candidates.old candidates.new (λ s. gather (field_ending s through) fields.now) }
{
    for field in fields {
        hide(candidates, &field.sel);
    }
}

// The candidates among the methods that stand in a type itself: those whose selectors no field has.
fn own_methods<'a>(
    alloc: Global,
    through: bool,
    members: &Members<'a>,
) -> Result<BTreeMap<Sel, Candidate<'a>>, NoMemory>
    ensures { IfOk result (HoldOwnMethods through members.now.fields.now members.now.declared.now members.now.methods.now) }
{
    let mut candidates = BTreeMap::new(alloc);
    note_declared(alloc, &mut candidates, 0, through, members.declared)?;
    note_methods(alloc, &mut candidates, 0, members.methods)?;
    hide_fields(&mut candidates, members.fields);
    Ok(candidates)
}

fn is_done(layer: &Vec<Spot<'_>>) -> bool
    ensures { result ≡ true → layer.now.items ≡ [] }
{
    layer.is_empty()
}

// The candidates once all paths are walked, where methods are found in the type.
fn count<'a, T: TypeTable>(
    alloc: Global,
    types: &Lookup<'a, T>,
    term: &'a Term,
) -> Result<BTreeMap<Sel, Candidate<'a>>, NoMemory>
    ensures { IfOk result (λ candidates. is_defined_pointer (T.lookup types.now.table.now) term.now ≡ false → HoldMethodSet (T.lookup types.now.table.now) term.now candidates) }
{
    let mut candidates = BTreeMap::new(alloc);
    let mut seen = Seen::new(alloc);
    let mut layer = Vec::new(alloc);
    layer.push(types.start(term))?;
    for depth in 0..u64::MAX {
        if is_done(&layer) {
            return Ok(candidates);
        }
        let mut all = Vec::new(alloc);
        note_layer(alloc, types, &mut candidates, depth, &layer, &mut all)?;
        layer = seen.consolidated(&all)?;
    }
    Err(NoMemory)
}

// The candidates, where methods are found in the type: its own, if no field is embedded.
fn count_own<'a, T: TypeTable>(
    alloc: Global,
    types: &Lookup<'a, T>,
    term: &'a Term,
) -> Result<BTreeMap<Sel, Candidate<'a>>, NoMemory>
    ensures { IfOk result (λ candidates. is_defined_pointer (T.lookup types.now.table.now) term.now ≡ false → HoldMethodSet (T.lookup types.now.table.now) term.now candidates) }
{
    let start = types.start(term);
    let through = start.through();
    let members = types.members(start.term());
    let mut further = Vec::new(alloc);
    push_steps(through, members.fields, &mut further)?;
    if is_done(&further) {
        let own = own_methods(alloc, through, &members)?;
        return Ok(own);
    }
    let counted = count(alloc, types, term)?;
    Ok(counted)
}

/// The methods that can be called on a type, by their selectors.
pub fn candidates<'a, T: TypeTable>(
    alloc: Global,
    types: &Lookup<'a, T>,
    term: &'a Term,
) -> Result<BTreeMap<Sel, Candidate<'a>>, NoMemory>
    ensures { IfOk result (HoldMethodSet (T.lookup types.now.table.now) term.now) }
{
    if types.is_defined_pointer(term) {
        return Ok(BTreeMap::new(alloc));
    }
    let counted = count_own(alloc, types, term)?;
    Ok(counted)
}

/// The signature of the method with this selector, where it can be called.
pub fn called_at<'a>(candidates: &BTreeMap<Sel, Candidate<'a>>, sel: &Sel) -> Option<&'a Signature>
    ensures { signature_of result ≡ called_at candidates.now sel.now }
{
    match candidates.get(sel) {
        Some(candidate) => candidate.called(),
        None => None,
    }
}
