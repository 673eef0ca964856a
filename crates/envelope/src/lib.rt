// What an update says beside its layout, and what it does to the session: whom it is for (40), an error or nothing in place of a layout (41, 42),
// whether it is stale, and which names it brings.
#![tactic(auto)]

ghost use Rattle.std.specs.Prelude.{◌≡◌};
ghost use Rattle.rules.specs.Update.{body_rule, address_rule, is_stale, kept_name, cleared_name};
ghost use Rattle.envelope.specs.Parts.{text_or_none, session_holding, session_if};

use answers::{Refusal, Updated};
use types::records::{Name, Session, Update};

// The text of a name, or the empty one.
fn text_or_none(name: Name) -> u64
    ensures { result ≡ text_or_none name }
{
    if name.present {
        return name.text;
    }
    0
}

// 41, 42: an update without a layout. Beside a layout an error is ignored.
#[tactic(auto, unfolding(rules::specs::Update::body_rule))]
fn judge_body(update: Update) -> Result<(), Refusal>
    ensures { result ≡ body_rule update }
{
    if update.layout {
        return Ok(());
    }
    if update.error {
        return Err(Refusal::Broker {
            code: update.code,
            message: text_or_none(update.message),
        });
    }
    Err(Refusal::Empty {
        session: update.session,
    })
}

// 40, then 41 or 42.
#[tactic(auto, unfolding(rules::specs::Update::address_rule))]
pub fn judge_address(session: Session, update: Update) -> Result<(), Refusal>
    ensures { result ≡ address_rule session update }
{
    if update.session != session.id {
        return Err(Refusal::SessionMismatch {
            got: update.session,
            expected: session.id,
        });
    }
    judge_body(update)
}

// An epoch at or below the held one. Before the first layout no update is stale.
#[tactic(auto, unfolding(rules::specs::Update::is_stale))]
pub fn is_stale(session: Session, update: Update) -> bool
    ensures { result ≡ is_stale session update }
{
    session.held && update.epoch <= session.epoch
}

// An absent resolved name keeps the old one.
fn kept_name(old: Name, new: Name) -> Name
    ensures { result ≡ kept_name old new }
{
    if new.present {
        return new;
    }
    old
}

// Absent controller URLs clear theirs.
fn cleared_name(new: Name) -> Name
    ensures { result ≡ cleared_name new }
{
    if new.present {
        return new;
    }
    Name {
        present: false,
        text: 0,
    }
}

// The session that holds the layout of this update, n rows with e edge words.
#[tactic(auto, unfolding(crate::specs::Parts::session_holding))]
fn session_with(session: Session, update: Update, n: usize, e: usize) -> Session
    ensures { result ≡ session_holding session update n e }
{
    Session {
        id: session.id,
        held: true,
        epoch: update.epoch,
        rows: n,
        edges: e,
        resolved: kept_name(session.resolved, update.resolved),
        controller: cleared_name(update.controller),
        secure: cleared_name(update.secure),
    }
}

// Only an accepted update changes the session.
pub fn session_after(
    session: Session,
    update: Update,
    n: usize,
    e: usize,
    answer: Result<Updated, Refusal>,
) -> Session
    ensures { result ≡ session_if answer (session_holding session update n e) session }
{
    match answer {
        Ok(Updated::Accepted(_)) => session_with(session, update, n, e),
        Ok(Updated::Stale) | Err(_) => session,
    }
}
