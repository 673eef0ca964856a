// The fixed table of document 01: for each number 0 to 63 its family and how many values it carries, 51's list not counted.
ghost use Rattle.std.specs.Prelude.{◌≡◌};
ghost use Rattle.answers.specs.Kinds.{kind_of};

// 0 none, 1 added, 2 layout, 3 session, 4 ordering, 5 assignment.
#[repr(C)]
#[derive(Clone, Copy)]
pub struct Kind {
    pub family: u64,
    pub values: u64,
}

const KINDS: [Kind; 64] = [
    Kind {
        family: 0,
        values: 0,
    },
    Kind {
        family: 1,
        values: 0,
    },
    Kind {
        family: 1,
        values: 0,
    },
    Kind {
        family: 2,
        values: 2,
    },
    Kind {
        family: 2,
        values: 2,
    },
    Kind {
        family: 2,
        values: 2,
    },
    Kind {
        family: 2,
        values: 1,
    },
    Kind {
        family: 2,
        values: 1,
    },
    Kind {
        family: 2,
        values: 1,
    },
    Kind {
        family: 2,
        values: 1,
    },
    Kind {
        family: 2,
        values: 2,
    },
    Kind {
        family: 2,
        values: 2,
    },
    Kind {
        family: 2,
        values: 3,
    },
    Kind {
        family: 2,
        values: 2,
    },
    Kind {
        family: 2,
        values: 3,
    },
    Kind {
        family: 2,
        values: 2,
    },
    Kind {
        family: 2,
        values: 1,
    },
    Kind {
        family: 2,
        values: 1,
    },
    Kind {
        family: 2,
        values: 4,
    },
    Kind {
        family: 2,
        values: 1,
    },
    Kind {
        family: 2,
        values: 2,
    },
    Kind {
        family: 2,
        values: 2,
    },
    Kind {
        family: 2,
        values: 2,
    },
    Kind {
        family: 2,
        values: 1,
    },
    Kind {
        family: 2,
        values: 2,
    },
    Kind {
        family: 2,
        values: 2,
    },
    Kind {
        family: 2,
        values: 4,
    },
    Kind {
        family: 2,
        values: 2,
    },
    Kind {
        family: 2,
        values: 2,
    },
    Kind {
        family: 2,
        values: 0,
    },
    Kind {
        family: 2,
        values: 1,
    },
    Kind {
        family: 2,
        values: 1,
    },
    Kind {
        family: 2,
        values: 1,
    },
    Kind {
        family: 2,
        values: 0,
    },
    Kind {
        family: 2,
        values: 3,
    },
    Kind {
        family: 2,
        values: 2,
    },
    Kind {
        family: 2,
        values: 2,
    },
    Kind {
        family: 0,
        values: 0,
    },
    Kind {
        family: 0,
        values: 0,
    },
    Kind {
        family: 0,
        values: 0,
    },
    Kind {
        family: 3,
        values: 2,
    },
    Kind {
        family: 3,
        values: 2,
    },
    Kind {
        family: 3,
        values: 1,
    },
    Kind {
        family: 0,
        values: 0,
    },
    Kind {
        family: 0,
        values: 0,
    },
    Kind {
        family: 0,
        values: 0,
    },
    Kind {
        family: 0,
        values: 0,
    },
    Kind {
        family: 0,
        values: 0,
    },
    Kind {
        family: 0,
        values: 0,
    },
    Kind {
        family: 0,
        values: 0,
    },
    Kind {
        family: 4,
        values: 1,
    },
    Kind {
        family: 4,
        values: 1,
    },
    Kind {
        family: 0,
        values: 0,
    },
    Kind {
        family: 0,
        values: 0,
    },
    Kind {
        family: 0,
        values: 0,
    },
    Kind {
        family: 0,
        values: 0,
    },
    Kind {
        family: 0,
        values: 0,
    },
    Kind {
        family: 0,
        values: 0,
    },
    Kind {
        family: 0,
        values: 0,
    },
    Kind {
        family: 0,
        values: 0,
    },
    Kind {
        family: 5,
        values: 2,
    },
    Kind {
        family: 5,
        values: 1,
    },
    Kind {
        family: 5,
        values: 1,
    },
    Kind {
        family: 5,
        values: 1,
    },
];

// What the table says of a number; nothing of one that is not in it.
pub fn kind_of(number: u64) -> Kind
    ensures { result ≡ kind_of number }
{
    if number >= 64 {
        return Kind {
            family: 0,
            values: 0,
        };
    }
    let at = number as usize;
    KINDS[at]
}
