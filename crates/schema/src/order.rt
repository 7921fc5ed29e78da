// Which element may follow which. Document 01: "For each container a fixed table says which element may follow which".
ghost use Rattle.std.specs.Prelude.{◌≡◌, ◌+◌, ◌≤◌, ◌<◌};
ghost use Rattle.schema.specs.Sequences.{next_of, container_of, classes};
ghost use Rattle.schema.specs.Tables.{Tabled};

// How many classes of elements there are.
const CLASSES: usize = 51;

// A container's table: what may follow in each of its states, which are counted over all containers.
struct Table<const ROWS: usize, const COLUMNS: usize> {
    // The state of the first row; a state says how many of the container's particles are passed.
    first: usize,
    // An entry is the next state, or 0 where the element may not stand.
    rows: [[u8; COLUMNS]; ROWS],
    // The column of each class: 0 for a class that the container doesn't hold, 1 for its own end (class 0), then its particles in their order.
    columns: [u8; CLASSES],
}

impl<const ROWS: usize, const COLUMNS: usize> Table<ROWS, COLUMNS> {
    // The state after a class's start, from one of the table's states.
    fn next(&self, state: usize, class: usize) -> usize
        requires right { Tabled self.now.first ROWS COLUMNS self.now.rows self.now.columns }
        requires from { self.now.first ≤ state }
        requires below { state < self.now.first + ROWS }
        requires class { class < classes }
        ensures { result ≡ next_of state class }
    {
        self.rows[state - self.first][self.columns[class] as usize] as usize
    }
}

// A container's table is a static, which stands in one place: a constant of such a struct is copied wherever it is used.

// The document itself.
static DOCUMENT: Table<2, 3> = Table {
    first: 1,
    rows: [[0, 0, 3], [0, 0, 0]],
    columns: [
        1, 2, 0, 0, 0, 0, 0, 0, 0, 0, 0, 0, 0, 0, 0, 0, 0, 0, 0, 0, 0, 0, 0, 0, 0, 0, 0, 0, 0, 0,
        0, 0, 0, 0, 0, 0, 0, 0, 0, 0, 0, 0, 0, 0, 0, 0, 0, 0, 0, 0, 0,
    ],
};

// The alert.
static ALERT: Table<15, 16> = Table {
    first: 3,
    rows: [
        [0, 0, 4, 0, 0, 0, 0, 0, 0, 0, 0, 0, 0, 0, 0, 0],
        [0, 0, 0, 5, 0, 0, 0, 0, 0, 0, 0, 0, 0, 0, 0, 0],
        [0, 0, 0, 0, 6, 0, 0, 0, 0, 0, 0, 0, 0, 0, 0, 0],
        [0, 0, 0, 0, 0, 7, 0, 0, 0, 0, 0, 0, 0, 0, 0, 0],
        [0, 0, 0, 0, 0, 0, 8, 0, 0, 0, 0, 0, 0, 0, 0, 0],
        [0, 0, 0, 0, 0, 0, 0, 9, 10, 0, 0, 0, 0, 0, 0, 0],
        [0, 0, 0, 0, 0, 0, 0, 0, 10, 0, 0, 0, 0, 0, 0, 0],
        [0, 2, 0, 0, 0, 0, 0, 0, 0, 11, 12, 13, 14, 15, 16, 18],
        [0, 2, 0, 0, 0, 0, 0, 0, 0, 0, 12, 13, 14, 15, 16, 18],
        [0, 2, 0, 0, 0, 0, 0, 0, 0, 0, 0, 13, 14, 15, 16, 18],
        [0, 2, 0, 0, 0, 0, 0, 0, 0, 0, 0, 13, 14, 15, 16, 18],
        [0, 2, 0, 0, 0, 0, 0, 0, 0, 0, 0, 0, 0, 15, 16, 18],
        [0, 2, 0, 0, 0, 0, 0, 0, 0, 0, 0, 0, 0, 0, 16, 18],
        [0, 2, 0, 0, 0, 0, 0, 0, 0, 0, 0, 0, 0, 0, 0, 18],
        [0, 2, 0, 0, 0, 0, 0, 0, 0, 0, 0, 0, 0, 0, 0, 18],
    ],
    columns: [
        1, 0, 15, 0, 0, 0, 0, 0, 2, 3, 4, 5, 6, 7, 8, 9, 10, 11, 12, 13, 14, 0, 0, 0, 0, 0, 0, 0,
        0, 0, 0, 0, 0, 0, 0, 0, 0, 0, 0, 0, 0, 0, 0, 0, 0, 0, 0, 0, 0, 0, 0,
    ],
};

// info.
static INFO: Table<22, 23> = Table {
    first: 18,
    rows: [
        [
            0, 0, 19, 20, 0, 0, 0, 0, 0, 0, 0, 0, 0, 0, 0, 0, 0, 0, 0, 0, 0, 0, 0,
        ],
        [
            0, 0, 0, 20, 0, 0, 0, 0, 0, 0, 0, 0, 0, 0, 0, 0, 0, 0, 0, 0, 0, 0, 0,
        ],
        [
            0, 0, 0, 20, 21, 0, 0, 0, 0, 0, 0, 0, 0, 0, 0, 0, 0, 0, 0, 0, 0, 0, 0,
        ],
        [
            0, 0, 0, 0, 0, 22, 23, 0, 0, 0, 0, 0, 0, 0, 0, 0, 0, 0, 0, 0, 0, 0, 0,
        ],
        [
            0, 0, 0, 0, 0, 22, 23, 0, 0, 0, 0, 0, 0, 0, 0, 0, 0, 0, 0, 0, 0, 0, 0,
        ],
        [
            0, 0, 0, 0, 0, 0, 0, 24, 0, 0, 0, 0, 0, 0, 0, 0, 0, 0, 0, 0, 0, 0, 0,
        ],
        [
            0, 0, 0, 0, 0, 0, 0, 0, 25, 0, 0, 0, 0, 0, 0, 0, 0, 0, 0, 0, 0, 0, 0,
        ],
        [
            0, 17, 0, 0, 0, 0, 0, 0, 0, 26, 54, 28, 29, 30, 31, 32, 33, 34, 35, 36, 57, 40, 47,
        ],
        [
            0, 17, 0, 0, 0, 0, 0, 0, 0, 0, 54, 28, 29, 30, 31, 32, 33, 34, 35, 36, 57, 40, 47,
        ],
        [
            0, 17, 0, 0, 0, 0, 0, 0, 0, 0, 54, 28, 29, 30, 31, 32, 33, 34, 35, 36, 57, 40, 47,
        ],
        [
            0, 17, 0, 0, 0, 0, 0, 0, 0, 0, 0, 0, 29, 30, 31, 32, 33, 34, 35, 36, 57, 40, 47,
        ],
        [
            0, 17, 0, 0, 0, 0, 0, 0, 0, 0, 0, 0, 0, 30, 31, 32, 33, 34, 35, 36, 57, 40, 47,
        ],
        [
            0, 17, 0, 0, 0, 0, 0, 0, 0, 0, 0, 0, 0, 0, 31, 32, 33, 34, 35, 36, 57, 40, 47,
        ],
        [
            0, 17, 0, 0, 0, 0, 0, 0, 0, 0, 0, 0, 0, 0, 0, 32, 33, 34, 35, 36, 57, 40, 47,
        ],
        [
            0, 17, 0, 0, 0, 0, 0, 0, 0, 0, 0, 0, 0, 0, 0, 0, 33, 34, 35, 36, 57, 40, 47,
        ],
        [
            0, 17, 0, 0, 0, 0, 0, 0, 0, 0, 0, 0, 0, 0, 0, 0, 0, 34, 35, 36, 57, 40, 47,
        ],
        [
            0, 17, 0, 0, 0, 0, 0, 0, 0, 0, 0, 0, 0, 0, 0, 0, 0, 0, 35, 36, 57, 40, 47,
        ],
        [
            0, 17, 0, 0, 0, 0, 0, 0, 0, 0, 0, 0, 0, 0, 0, 0, 0, 0, 0, 36, 57, 40, 47,
        ],
        [
            0, 17, 0, 0, 0, 0, 0, 0, 0, 0, 0, 0, 0, 0, 0, 0, 0, 0, 0, 0, 57, 40, 47,
        ],
        [
            0, 17, 0, 0, 0, 0, 0, 0, 0, 0, 0, 0, 0, 0, 0, 0, 0, 0, 0, 0, 57, 40, 47,
        ],
        [
            0, 17, 0, 0, 0, 0, 0, 0, 0, 0, 0, 0, 0, 0, 0, 0, 0, 0, 0, 0, 0, 40, 47,
        ],
        [
            0, 17, 0, 0, 0, 0, 0, 0, 0, 0, 0, 0, 0, 0, 0, 0, 0, 0, 0, 0, 0, 0, 47,
        ],
    ],
    columns: [
        1, 0, 0, 21, 22, 10, 20, 0, 0, 0, 0, 0, 0, 0, 0, 0, 0, 0, 0, 0, 0, 2, 3, 4, 5, 6, 7, 8, 9,
        11, 12, 13, 14, 15, 16, 17, 18, 19, 0, 0, 0, 0, 0, 0, 0, 0, 0, 0, 0, 0, 0,
    ],
};

// resource.
static RESOURCE: Table<7, 8> = Table {
    first: 40,
    rows: [
        [0, 0, 41, 0, 0, 0, 0, 0],
        [0, 0, 0, 42, 0, 0, 0, 0],
        [0, 38, 0, 0, 43, 44, 45, 46],
        [0, 38, 0, 0, 0, 44, 45, 46],
        [0, 38, 0, 0, 0, 0, 45, 46],
        [0, 38, 0, 0, 0, 0, 0, 46],
        [0, 38, 0, 0, 0, 0, 0, 0],
    ],
    columns: [
        1, 0, 0, 0, 0, 0, 0, 0, 0, 0, 0, 0, 0, 0, 0, 0, 0, 0, 0, 0, 0, 0, 0, 0, 0, 0, 0, 0, 0, 0,
        0, 0, 0, 0, 0, 0, 0, 0, 2, 3, 4, 5, 6, 7, 0, 0, 0, 0, 0, 0, 0,
    ],
};

// area.
static AREA: Table<7, 8> = Table {
    first: 47,
    rows: [
        [0, 0, 48, 0, 0, 0, 0, 0],
        [0, 39, 0, 49, 50, 60, 52, 53],
        [0, 39, 0, 49, 50, 60, 52, 53],
        [0, 39, 0, 0, 50, 60, 52, 53],
        [0, 39, 0, 0, 0, 60, 52, 53],
        [0, 39, 0, 0, 0, 0, 0, 53],
        [0, 39, 0, 0, 0, 0, 0, 0],
    ],
    columns: [
        1, 0, 0, 0, 0, 0, 0, 5, 0, 0, 0, 0, 0, 0, 0, 0, 0, 0, 0, 0, 0, 0, 0, 0, 0, 0, 0, 0, 0, 0,
        0, 0, 0, 0, 0, 0, 0, 0, 0, 0, 0, 0, 0, 0, 2, 3, 4, 6, 7, 0, 0,
    ],
};

// eventCode, parameter and geocode, from states 54, 57 and 60.
static PAIR: Table<9, 4> = Table {
    first: 54,
    rows: [
        [0, 0, 55, 0],
        [0, 0, 0, 56],
        [0, 27, 0, 0],
        [0, 0, 58, 0],
        [0, 0, 0, 59],
        [0, 37, 0, 0],
        [0, 0, 61, 0],
        [0, 0, 0, 62],
        [0, 51, 0, 0],
    ],
    columns: [
        1, 0, 0, 0, 0, 0, 0, 0, 0, 0, 0, 0, 0, 0, 0, 0, 0, 0, 0, 0, 0, 0, 0, 0, 0, 0, 0, 0, 0, 0,
        0, 0, 0, 0, 0, 0, 0, 0, 0, 0, 0, 0, 0, 0, 0, 0, 0, 0, 0, 2, 3,
    ],
};

// How many states there are, with state 0, which is none.
const STATES: usize = 63;

// The container of each state, 0 for the document itself.
const CONTAINER: [u8; STATES] = [
    0, 0, 0, 1, 1, 1, 1, 1, 1, 1, 1, 1, 1, 1, 1, 1, 1, 1, 2, 2, 2, 2, 2, 2, 2, 2, 2, 2, 2, 2, 2, 2,
    2, 2, 2, 2, 2, 2, 2, 2, 3, 3, 3, 3, 3, 3, 3, 4, 4, 4, 4, 4, 4, 4, 5, 5, 5, 6, 6, 6, 7, 7, 7,
];

// The state after an element's start (class 0: after the container's end); 0 where it may not stand.
#[tactic(auto, unfolding(crate::specs::Sequences::next_of, crate::specs::Sequences::container_of))]
pub fn next(state: usize, class: usize) -> usize
    ensures { result ≡ next_of state class }
{
    if CLASSES <= class {
        return 0;
    }
    match state {
        0 => 0,
        1..=2 => DOCUMENT.next(state, class),
        3..=17 => ALERT.next(state, class),
        18..=39 => INFO.next(state, class),
        40..=46 => RESOURCE.next(state, class),
        47..=53 => AREA.next(state, class),
        54..=62 => PAIR.next(state, class),
        _ => 0,
    }
}

// The container that a state belongs to, 0 for the document itself.
pub fn container_of(state: usize) -> usize
    ensures { result ≡ container_of state }
{
    if state < STATES {
        CONTAINER[state] as usize
    } else {
        0
    }
}
