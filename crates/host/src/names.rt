// A new session, and what a session knows.
ghost use Rattle.std.specs.Prelude.{◌≡◌};
ghost use Rattle.rules.specs.Session.{new_session};

use types::records::{Name, Session};

// `session::new_session`: before the first update.
#[unsafe(no_mangle)]
pub extern "C" fn threshpetal_new_session(id: u64) -> Session
    ensures { result ≡ new_session id }
{
    session::new_session(id)
}

// `session::is_resolved`: has a layout been accepted?
#[unsafe(no_mangle)]
pub extern "C" fn threshpetal_is_resolved(s: Session) -> bool
    ensures { result ≡ s.held }
{
    session::is_resolved(s)
}

#[unsafe(no_mangle)]
pub extern "C" fn threshpetal_resolved_name(s: Session) -> Name
    ensures { result ≡ s.resolved }
{
    session::resolved_topic_name(s)
}

#[unsafe(no_mangle)]
pub extern "C" fn threshpetal_controller_url(s: Session) -> Name
    ensures { result ≡ s.controller }
{
    session::controller_broker_url(s)
}

#[unsafe(no_mangle)]
pub extern "C" fn threshpetal_controller_url_tls(s: Session) -> Name
    ensures { result ≡ s.secure }
{
    session::controller_broker_url_tls(s)
}
