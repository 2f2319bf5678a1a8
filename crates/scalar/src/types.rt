// The types of columns, literals and results.
ghost use Rattle.std.specs.Prelude.{◌≡◌};
ghost use Rattle.scalar.specs.Types.{is_integer, type_number, type_numbered, type_answer, mark_number};

#[derive(Clone, Copy, Debug, PartialEq, Eq)]
pub enum DataType {
    Boolean,
    Int32,
    Int64,
    Float64,
    Utf8,
}

impl DataType {
    // The number of a type.
    pub fn number(self) -> u8
        ensures { result ≡ type_number self }
    {
        match self {
            DataType::Boolean => 1,
            DataType::Int32 => 2,
            DataType::Int64 => 3,
            DataType::Float64 => 4,
            DataType::Utf8 => 5,
        }
    }

    // The type of a number: 1 to 5.
    pub fn numbered(number: u8) -> Option<DataType>
        ensures { result ≡ type_answer (type_numbered 0 number) }
    {
        match number {
            1 => Some(DataType::Boolean),
            2 => Some(DataType::Int32),
            3 => Some(DataType::Int64),
            4 => Some(DataType::Float64),
            5 => Some(DataType::Utf8),
            _ => None,
        }
    }
}

// Whether a type is an integer's.
pub(crate) fn is_integer(t: DataType) -> bool
    ensures { result ≡ is_integer t }
{
    matches!(t, DataType::Int32 | DataType::Int64)
}

// The number of a mark: 1 or 0.
pub fn mark_number(b: bool) -> u8
    ensures { result ≡ mark_number b }
{
    u8::from(b)
}
