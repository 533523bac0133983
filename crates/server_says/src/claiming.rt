ghost use Rattle.std.specs.Prelude.{◌≡◌, ◌↔◌, ◌∷◌, [], None, true, All, IsTrue, IfOk, OnOk};
ghost use Rattle.message_types.specs.declared.message.Body.TheVariants.{Reclaimed as IsReclaimed};
ghost use Rattle.run_rules.specs.Past.{In};
ghost use Rattle.server_says.specs.Claiming.{AddsAnswer, AdmitsOne, AreAnswers, IsAdded, IsAdmitted};
ghost use Rattle.server_says.specs.Claiming.{IsNextAdmission, admitting, answer_of, answering, is_claimed};
ghost use Rattle.server_says.specs.Claiming.{is_past_of, is_ripe, names_past, pick, telling, to_admit, with_claim};
ghost use Rattle.server_says.specs.Running.{GoesTo};
ghost use Rattle.server_tables.specs.Counting.{IsCounted};
ghost use Rattle.server_tables.specs.Judging.{first_ripe};
ghost use Rattle.server_takes.specs.Drafts.{saying, word};
ghost use Rattle.server_takes.specs.Taking.{made};
ghost use Rattle.token_manager.specs.Grants.{CanClaim};
ghost use Rattle.token_table.specs.Tables.{has_id};

use base_types::{HostId, Items, NoMemory, Plain};
use message_types::{Body, Reclaim, Reclaimed};
use run_rules::Admission;
use server_tables::{Claimed, Recovering, Tables, is_same_answer};
use server_takes::Draft;
use token_manager::TokenManager;
use token_types::Token;

/// Grants each claim that waits whose give-backs have all come. An error comes where a claim names another host's
/// token, or one of this epoch, too: no sound claim does.
pub fn admit_all(tables: &mut Tables, draft: &mut Draft) -> Result<(), NoMemory>
    requires counted { IsCounted tables.old }
    ensures goes { OnOk result (GoesTo AdmitsOne (made tables.old draft.old) (made tables.new draft.new)) }
    ensures none { OnOk result (first_ripe tables.new.recovering tables.new.server ≡ None) }
    ensures counted { OnOk result (IsCounted tables.new) }
{
    while let Some(admission) = next_admission(tables)? {
        admit(tables, draft, admission)?;
    }
    Ok(())
}

/// The first claim whose give-backs have all come: its host, and the tokens that are granted again.
fn next_admission(tables: &Tables) -> Result<Option<Admission>, NoMemory>
    ensures { IfOk result (IsNextAdmission tables.now) }
{
    let Some(claimed) = tables.recovering.first_ripe(tables.server) else {
        return Ok(None);
    };
    let tokens = to_admit(tables, claimed)?;
    Ok(Some(Admission {
        host: claimed.host,
        tokens,
    }))
}

/// The tokens of a claim that are granted again: of filesets that it names and that are here, but for those that its
/// host gave up since, and that are granted already. Of two with one number it is the first.
fn to_admit(tables: &Tables, claimed: &Claimed) -> Result<Items<Token>, NoMemory>
    ensures tokens { IfOk result (λ tokens. tokens ≡ to_admit tables.now claimed.now) }
    ensures past { OnOk result (names_past tables.now.tokens claimed.now ≡ true) }
{
    let mut tokens = Items::new(tables.alloc());
    for token in claimed.claim.tokens.as_slice() {
        pick(tables, claimed, &mut tokens, *token)?;
    }
    if !names_past(&tables.tokens, claimed) {
        return Err(NoMemory);
    }
    Ok(tokens)
}

/// A token of a claim comes to those that were picked, where it is granted again and none has its number.
#[tactic(auto, unfolding(crate::specs::Claiming::pick))]
fn pick(
    tables: &Tables,
    claimed: &Claimed,
    tokens: &mut Items<Token>,
    token: Token,
) -> Result<(), NoMemory>
    ensures { OnOk result (tokens.new ≡ pick (is_claimed tables.now claimed.now) tokens.old token) }
{
    if !is_claimed(tables, claimed, &token) || has_id(tokens, &token) {
        return Ok(());
    }
    tokens.push(token)
}

/// Whether a claim names tokens of its host and of earlier epochs alone.
fn names_past(manager: &TokenManager, claimed: &Claimed) -> bool
    ensures { result ≡ names_past manager.now claimed.now }
{
    claimed
        .claim
        .tokens
        .as_slice()
        .iter()
        .all(|token| is_past_of(manager, claimed.host, token))
}

fn is_past_of(manager: &TokenManager, host: HostId, token: &Token) -> bool
    ensures { result ≡ is_past_of manager.now host token.now }
{
    token.host == host && token.id.epoch < manager.last_id().epoch
}

/// Whether a token of a claim isn't granted, is of a fileset that the claim names, and wasn't given up.
fn is_claimed(tables: &Tables, claimed: &Claimed, token: &Token) -> bool
    ensures { result ≡ is_claimed tables.now claimed.now token.now }
{
    !tables.tokens.is_granted(token.id)
        && claimed.names(tables.server, token.fid.fileset)
        && !tables.recovering.gave_up(claimed.host, token.id)
}

fn has_id(tokens: &Items<Token>, token: &Token) -> bool
    ensures { result ≡ has_id tokens.now token.now.id }
{
    tokens.as_slice().iter().any(|other| other.id == token.id)
}

/// Grants tokens again to a host that claims them, and answers each of its claims whose give-backs have all come. Where
/// it was the last that the grace period waited for, the wants stand in the queue from now on.
fn admit(tables: &mut Tables, draft: &mut Draft, admission: Admission) -> Result<(), NoMemory>
    requires counted { IsCounted tables.old }
    requires can { All (CanClaim tables.old.tokens.grants) admission.tokens }
    ensures admitted { OnOk result
        (IsAdmitted tables.old draft.old admission.host admission.tokens tables.new draft.new) }
    ensures counted { OnOk result (IsCounted tables.new) }
{
    let host = admission.host;
    let answers = answers_to(tables, host)?;
    grant(tables, draft, admission)?;
    answer_all(tables, draft, host, answers.as_slice())?;
    tables.reclaim(host)
}

/// The tokens are granted again.
fn grant(tables: &mut Tables, draft: &mut Draft, admission: Admission) -> Result<(), NoMemory>
    requires can { All (CanClaim tables.old.tokens.grants) admission.tokens }
    ensures tables { OnOk result (tables.new ≡ with_claim tables.old admission.tokens) }
    ensures draft { OnOk result (draft.new ≡ admitting draft.old admission) }
{
    tables.tokens.admit(admission.tokens.as_slice())?;
    draft.admitted.push(admission)
}

/// The answers to the claims of a host whose give-backs have all come, each once.
fn answers_to(tables: &Tables, host: HostId) -> Result<Items<Reclaimed>, NoMemory>
    ensures { IfOk result (AreAnswers tables.now host tables.now.recovering.claims) }
{
    let mut answers = Items::new(tables.alloc());
    for claimed in tables.recovering.claims.as_slice() {
        answer_one(tables, host, claimed, &mut answers)?;
    }
    Ok(answers)
}

/// The answer to a claim comes to others, where the claim is the host's and its give-backs have all come.
fn answer_one(
    tables: &Tables,
    host: HostId,
    claimed: &Claimed,
    answers: &mut Items<Reclaimed>,
) -> Result<(), NoMemory>
    ensures { OnOk result (AddsAnswer tables.now host claimed.now answers.old answers.new) }
{
    if !is_ripe(tables, host, claimed) {
        return Ok(());
    }
    let answer = answer_of(&tables.recovering, host, &claimed.claim)?;
    add(answers, answer)
}

/// Whether a claim is a host's, and its give-backs have all come.
fn is_ripe(tables: &Tables, host: HostId, claimed: &Claimed) -> bool
    ensures { result ≡ is_ripe tables.now host claimed.now }
{
    claimed.host == host
        && tables
            .recovering
            .has_all(tables.server, host, &claimed.claim)
}

fn answer_of(recovering: &Recovering, host: HostId, claim: &Reclaim) -> Result<Reclaimed, NoMemory>
    ensures { IfOk result (λ answer. answer ≡ answer_of recovering.now host claim.now) }
{
    Ok(Reclaimed {
        applied: recovering.applied(host, claim)?,
        left_out: recovering.left_out(host, claim)?,
    })
}

/// An answer comes to others where it isn't there.
fn add(answers: &mut Items<Reclaimed>, answer: Reclaimed) -> Result<(), NoMemory>
    ensures { OnOk result (IsAdded answer answers.old answers.new) }
{
    if has_answer(answers.as_slice(), &answer) {
        return Ok(());
    }
    answers.push(answer)
}

fn has_answer(answers: &[Reclaimed], answer: &Reclaimed) -> bool
    ensures { IsTrue result ↔ In answer.now answers.now }
{
    for other in answers {
        if is_same_answer(other, answer) {
            return true;
        }
    }
    false
}

/// Says some answers to a host, and notes them.
fn answer_all(
    tables: &mut Tables,
    draft: &mut Draft,
    host: HostId,
    answers: &[Reclaimed],
) -> Result<(), NoMemory>
    ensures tables { OnOk result (tables.new ≡ answering tables.old host answers.now) }
    ensures draft { OnOk result (draft.new ≡ telling tables.old draft.old host answers.now) }
{
    for answer in answers {
        tell(tables, draft, host, answer)?;
    }
    Ok(())
}

fn tell(
    tables: &mut Tables,
    draft: &mut Draft,
    host: HostId,
    answer: &Reclaimed,
) -> Result<(), NoMemory>
    ensures tables { OnOk result (tables.new ≡ answering tables.old host (answer.now ∷ [])) }
    ensures draft { OnOk result (draft.new ≡ saying draft.old (word tables.old host (IsReclaimed answer.now))) }
{
    let said = answer.copy()?;
    draft.say(tables, host, Body::Reclaimed(said))?;
    let noted = answer.copy()?;
    tables.recovering.note_answer(host, noted)
}
