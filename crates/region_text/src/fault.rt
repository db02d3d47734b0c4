// What is wrong with a text, and where. A field's fault climbs through its line to the refusal of the text.

ghost use Rattle.std.specs.Prelude.{◌≡◌};
ghost use Rattle.region_text.specs.declared.fault.LineFault.TheVariants.{Field as Within, Line as Whole};
ghost use Rattle.region_text.specs.Faults.{layer_name, printed, refusal_of, unended};

/// What is wrong, by the numbers that are printed.
#[derive(Clone, Copy, PartialEq, Eq)]
pub enum Fault {
    /// An unknown letter, a wrong field count, no final LF, or a bad number, name or mask.
    Malformed = 6,
    /// A number outside its range.
    OutOfRange = 7,
    /// A label that is not declared, or declared twice.
    Label = 8,
    /// A size is passed.
    TooMany = 9,
    /// A record in the wrong place, or no end.
    OutOfPlace = 10,
}

impl Fault {
    /// The number that is printed for the fault.
    pub fn number(self) -> u8
        ensures { result ≡ printed self }
    {
        self as u8
    }
}

/// Which reader found the fault: that of a field, of a line, or of the whole text.
#[derive(Clone, Copy, PartialEq, Eq)]
pub enum Layer {
    Field,
    Line,
    Shelf,
}

impl Layer {
    /// The word that is printed for the layer. No `Display`: lines are made of the words of several.
    pub fn name(self) -> &'static str
        ensures { result.now ≡ layer_name self }
    {
        match self {
            Layer::Field => "field",
            Layer::Line => "line",
            Layer::Shelf => "shelf",
        }
    }
}

/// Where a field stands: lines and fields count from 1.
#[derive(Clone, Copy)]
pub struct Spot {
    pub line: usize,
    pub field: usize,
}

/// A fault of a field's content.
#[derive(Clone, Copy)]
pub struct FieldFault {
    pub fault: Fault,
    pub spot: Spot,
}

impl Fault {
    /// The fault at a field.
    pub(crate) fn at(self, spot: Spot) -> FieldFault
        ensures { result ≡ record { fault = self; spot = spot } }
    {
        FieldFault { fault: self, spot }
    }

    /// The fault of a line.
    pub(crate) fn in_line(self, line: usize) -> LineFault
        ensures { result ≡ Whole self line }
    {
        LineFault::Line { fault: self, line }
    }
}

/// A fault of a line: one of its fields', or its own.
#[derive(Clone, Copy)]
pub enum LineFault {
    Field(FieldFault),
    Line { fault: Fault, line: usize },
}

impl From<FieldFault> for LineFault {
    ghost from_gives = { λ f r. r ≡ Within f };

    fn from(f: FieldFault) -> LineFault {
        LineFault::Field(f)
    }
}

/// Why a text is not taken. A line or a field that does not apply is 0 and not `None`, since the rules have the four printed as they stand here.
#[derive(Clone, Copy, PartialEq, Eq)]
pub struct Refusal {
    pub fault: Fault,
    pub line: usize,
    pub field: usize,
    pub layer: Layer,
}

impl Refusal {
    /// A text without its end, whose last line stands before that line.
    pub(crate) fn unended(line: usize) -> Refusal
        ensures { result ≡ unended line }
    {
        Refusal {
            fault: Fault::OutOfPlace,
            line,
            field: 0,
            layer: Layer::Shelf,
        }
    }
}

impl From<LineFault> for Refusal {
    ghost from_gives = { λ f r. r ≡ refusal_of f };

    fn from(f: LineFault) -> Refusal {
        match f {
            LineFault::Field(f) => Refusal {
                fault: f.fault,
                line: f.spot.line,
                field: f.spot.field,
                layer: Layer::Field,
            },
            LineFault::Line { fault, line } => Refusal {
                fault,
                line,
                field: 0,
                layer: Layer::Line,
            },
        }
    }
}
