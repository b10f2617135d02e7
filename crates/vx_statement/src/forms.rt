ghost use Rattle.std.specs.Prelude.{◌≡◌, ℕ, List, [], ◌∷◌, ◌++◌, map, filter, bytes_eq, IfOk, OnOk};
ghost use Rattle.vx_language.specs.Forms.{directives, pseudo_statements, instr_forms, forms_of, form, alone};
ghost use Rattle.vx_language.specs.Forms as language;
ghost use Rattle.vx_language.specs.Names.{instr_named};
ghost use Rattle.vx_statement.specs.Statements.{AreForms};
ghost use Rattle.vx_statement.specs.Ways.{form_of, named_form, slots_of};

use crate::form::{Action, Expansion, Form, NamedForm, listed_forms};
use crate::names::instr_named;
use crate::slot::Slot;
use crate::way::Way;
use crate::ways::instr_ways;
use smallvec::SmallVec;
use std::alloc::{AllocError, Global};
use vx_decode::Instr;

/// All forms of a name; none where the name is unknown.
#[tactic(auto, unfolding(vx_language::specs::Forms::forms_of))]
pub fn forms_of(alloc: Global, name: &[u8]) -> Result<SmallVec<Form, 4>, AllocError>
    ensures { IfOk result (λ forms. AreForms name.now forms.items) }
{
    let mut forms = SmallVec::new(alloc);
    push_listed(&mut forms, name)?;
    push_instr(&mut forms, name)?;
    Ok(forms)
}

/// Appends the directives and the pseudo-statements of this name.
fn push_listed(forms: &mut SmallVec<Form, 4>, name: &[u8]) -> Result<(), AllocError>
    ensures { OnOk result ((commas : ℕ) → map (form_of name.now commas) forms.new.items ≡ map (form_of name.now commas) forms.old.items ++ filter (λ (f : language.Form). bytes_eq name.now f.name) (directives commas ++ pseudo_statements)) }
{
    let mut rest = listed_forms();
    while let Some((named, later)) = rest.split_first() {
        push_named(forms, name, named)?;
        rest = later;
    }
    Ok(())
}

/// Appends a form where it has this name.
fn push_named(
    forms: &mut SmallVec<Form, 4>,
    name: &[u8],
    named: &NamedForm,
) -> Result<(), AllocError>
    ensures { OnOk result ((commas : ℕ) → map (form_of name.now commas) forms.new.items ≡ map (form_of name.now commas) forms.old.items ++ filter (λ (f : language.Form). bytes_eq name.now f.name) (named_form commas named.now ∷ [])) }
{
    if name == named.name.as_bytes() {
        forms.push(named.form)?;
    }
    Ok(())
}

/// Appends the forms of the instruction of this mnemonic.
fn push_instr(forms: &mut SmallVec<Form, 4>, name: &[u8]) -> Result<(), AllocError>
    ensures { OnOk result ((commas : ℕ) → map (form_of name.now commas) forms.new.items ≡ map (form_of name.now commas) forms.old.items ++ instr_forms name.now (instr_named name.now)) }
{
    match instr_named(name) {
        Some(instr) => push_ways(forms, instr_ways(instr.op), instr),
        None => Ok(()),
    }
}

/// Appends the forms of an instruction with these ways to write its operands.
fn push_ways(
    forms: &mut SmallVec<Form, 4>,
    ways: &[&'static [Slot]],
    instr: Instr,
) -> Result<(), AllocError>
    ensures { OnOk result ((name : List ℕ) (commas : ℕ) → map (form_of name commas) forms.new.items ≡ map (form_of name commas) forms.old.items ++ map (λ slots. form name slots (alone instr)) (map slots_of ways.now)) }
{
    for way in ways {
        forms.push(Form {
            way: Way::Slots(*way),
            action: Action::Puts(Expansion::Alone, instr),
        })?;
    }
    Ok(())
}
