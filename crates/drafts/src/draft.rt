// The update that is open: what its lines have said so far, but for its tables.
ghost use Rattle.std.specs.Prelude.{◌≡◌};
ghost use Rattle.drafts.specs.Draft.{opened_update, said_more};

use reading::lines::Line;
use types::records::{Name, Update};

// U alone.
pub fn opened(id: u64) -> Update
    ensures { result ≡ opened_update id }
{
    let none = Name {
        present: false,
        text: 0,
    };
    Update {
        session: id,
        layout: false,
        epoch: 0,
        size: 0,
        error: false,
        code: 0,
        message: none,
        resolved: none,
        controller: none,
        secure: none,
    }
}

// One line more. The tables' lines say nothing here, nor does an unreadable one.
pub fn said(u: Update, line: Option<Line>) -> Update
    ensures { result ≡ said_more u line }
{
    let Some(line) = line else {
        return u;
    };
    match line {
        Line::Update(id) => opened(id),
        Line::Layout(epoch, size) => Update {
            layout: true,
            epoch,
            size,
            ..u
        },
        Line::Error(code, message) => Update {
            error: true,
            code,
            message,
            ..u
        },
        Line::Resolved(resolved) => Update { resolved, ..u },
        Line::Controller(controller) => Update { controller, ..u },
        Line::Secure(secure) => Update { secure, ..u },
        Line::Session(_) | Line::Segment(_) | Line::Placement(_) => u,
        Line::End | Line::Query(_, _, _, _) => u,
    }
}
