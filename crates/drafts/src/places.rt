// Which lines may stand where: "a line .. out of its place (S first, once; D before s and p; others once an update)" is unreadable.
ghost use Rattle.std.specs.Prelude.{◌≡◌};
ghost use Rattle.drafts.specs.Places.{at_first, between_updates, in_place, after_line};

use reading::lines::Line;

// What has been read: S, and of the update that is open U, D, e, n, c, t. Flags and no enum: each of them comes by itself.
#[derive(Clone, Copy, PartialEq, Eq, Debug)]
pub struct Place {
    pub begun: bool,
    pub inside: bool,
    pub dated: bool,
    pub told: bool,
    pub resolved: bool,
    pub controller: bool,
    pub secure: bool,
}

// Before the first line.
pub fn at_first() -> Place
    ensures { result ≡ at_first }
{
    Place {
        begun: false,
        inside: false,
        dated: false,
        told: false,
        resolved: false,
        controller: false,
        secure: false,
    }
}

// S was read, and no update is open.
fn between_updates() -> Place
    ensures { result ≡ between_updates }
{
    Place {
        begun: true,
        ..at_first()
    }
}

// May this line stand here? An unreadable one, None, stands nowhere.
pub fn is_in_place(p: Place, line: Option<Line>) -> bool
    ensures { result ≡ in_place p line }
{
    let Some(line) = line else {
        return false;
    };
    match line {
        Line::Session(_) => !p.begun,
        Line::Update(_) => p.begun && !p.inside,
        Line::Layout(_, _) => p.inside && !p.dated,
        Line::Segment(_) => p.inside && p.dated,
        Line::Placement(_) => p.inside && p.dated,
        Line::Error(_, _) => p.inside && !p.told,
        Line::Resolved(_) => p.inside && !p.resolved,
        Line::Controller(_) => p.inside && !p.controller,
        Line::Secure(_) => p.inside && !p.secure,
        Line::End => p.inside,
        Line::Query(_, _, _, _) => p.begun && !p.inside,
    }
}

// The place after a line that stood in its own.
pub fn after_line(p: Place, line: Option<Line>) -> Place
    ensures { result ≡ after_line p line }
{
    let Some(line) = line else {
        return p;
    };
    match line {
        Line::Session(_) | Line::End => between_updates(),
        Line::Update(_) => Place {
            inside: true,
            ..between_updates()
        },
        Line::Layout(_, _) => Place { dated: true, ..p },
        Line::Error(_, _) => Place { told: true, ..p },
        Line::Resolved(_) => Place {
            resolved: true,
            ..p
        },
        Line::Controller(_) => Place {
            controller: true,
            ..p
        },
        Line::Secure(_) => Place { secure: true, ..p },
        Line::Segment(_) | Line::Placement(_) | Line::Query(_, _, _, _) => p,
    }
}
