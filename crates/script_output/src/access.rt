//! How rights and access lists are written.
ghost use Rattle.std.specs.Prelude.{◌≡◌, ◌++◌, OnOk};
ghost use Rattle.script_output.specs.Texts.{word_text};
ghost use Rattle.script_output.specs.Access.{letter_of, letters_of, rights_text, who_text, entry_text, list_text};

use crate::texts::push_word;
use base_types::{AccessEntry, AccessList, Items, NoMemory, Rights, Who};

/// Adds an access list, as a word.
pub(crate) fn push_list(out: &mut Items<u8>, list: &AccessList) -> Result<(), NoMemory>
    ensures { OnOk result (out.new ≡ out.old ++ word_text (list_text list.now)) }
{
    let mut text = Items::new(out.alloc());
    push_entries(&mut text, list.as_slice())?;
    push_word(out, text.as_slice())
}

fn push_entries(out: &mut Items<u8>, entries: &[AccessEntry]) -> Result<(), NoMemory>
    ensures { OnOk result (out.new ≡ out.old ++ list_text entries.now) }
{
    let Some((first, rest)) = entries.split_first() else {
        return Ok(());
    };
    push_entry(out, first)?;
    for entry in rest {
        out.push(b',')?;
        push_entry(out, entry)?;
    }
    Ok(())
}

fn push_entry(out: &mut Items<u8>, entry: &AccessEntry) -> Result<(), NoMemory>
    ensures { OnOk result (out.new ≡ out.old ++ entry_text entry.now) }
{
    push_who(out, &entry.who)?;
    out.push(b':')?;
    push_rights(out, entry.rights)
}

#[tactic(auto, unfolding(crate::specs::Access::who_text))]
fn push_who(out: &mut Items<u8>, who: &Who) -> Result<(), NoMemory>
    ensures { OnOk result (out.new ≡ out.old ++ who_text who.now) }
{
    match who {
        Who::UserObj => out.extend(b"user_obj"),
        Who::User(name) => {
            out.extend(b"user:")?;
            out.extend(name.as_bytes())
        }
        Who::GroupObj => out.extend(b"group_obj"),
        Who::Group(name) => {
            out.extend(b"group:")?;
            out.extend(name.as_bytes())
        }
        Who::OtherObj => out.extend(b"other_obj"),
        Who::MaskObj => out.extend(b"mask_obj"),
    }
}

/// Adds the letters of rights, or `-` where there are none.
#[tactic(auto, unfolding(crate::specs::Access::rights_text))]
pub(crate) fn push_rights(out: &mut Items<u8>, rights: Rights) -> Result<(), NoMemory>
    ensures { OnOk result (out.new ≡ out.old ++ rights_text rights) }
{
    if rights.bits() == 0 {
        out.push(b'-')
    } else {
        push_letters(out, b"", rights)
    }
}

/// Adds the letters of rights, with `lacking` in the place of each right that isn't among them.
#[tactic(auto, unfolding(crate::specs::Access::letters_of))]
pub(crate) fn push_letters(
    out: &mut Items<u8>,
    lacking: &[u8],
    rights: Rights,
) -> Result<(), NoMemory>
    ensures { OnOk result (out.new ≡ out.old ++ letters_of lacking.now rights) }
{
    push_letter(out, lacking, rights, Rights::READ, b'r')?;
    push_letter(out, lacking, rights, Rights::WRITE, b'w')?;
    push_letter(out, lacking, rights, Rights::EXECUTE, b'x')?;
    push_letter(out, lacking, rights, Rights::CONTROL, b'c')?;
    push_letter(out, lacking, rights, Rights::INSERT, b'i')?;
    push_letter(out, lacking, rights, Rights::DELETE, b'd')
}

fn push_letter(
    out: &mut Items<u8>,
    lacking: &[u8],
    rights: Rights,
    right: Rights,
    letter: u8,
) -> Result<(), NoMemory>
    ensures { OnOk result (out.new ≡ out.old ++ letter_of lacking.now rights right letter) }
{
    if rights.allows(right) {
        out.push(letter)
    } else {
        out.extend(lacking)
    }
}
