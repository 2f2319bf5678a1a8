// Which types fit.
ghost use Rattle.std.specs.Prelude.{◌≡◌};
ghost use Rattle.scalar.specs.Types.{is_number};
ghost use Rattle.scalar.specs.Cast.{whole, listed};

use scalar::types::DataType;

// Whether a type is one of the numbers'.
pub(crate) fn is_number(t: DataType) -> bool
    ensures { result ≡ is_number t }
{
    matches!(t, DataType::Int32 | DataType::Int64 | DataType::Float64)
}

// Whether a type is Boolean or an integer's.
fn is_whole(t: DataType) -> bool
    ensures { result ≡ whole t }
{
    matches!(t, DataType::Boolean | DataType::Int32 | DataType::Int64)
}

// Whether a cast from a type to a type is listed: each type to itself, any pair among Boolean, Int32 and Int64 and any among the numbers' types.
pub(crate) fn is_listed(from: DataType, to: DataType) -> bool
    ensures { result ≡ listed from to }
{
    match from {
        DataType::Boolean => is_whole(to),
        DataType::Int32 | DataType::Int64 => is_whole(to) || to == DataType::Float64,
        DataType::Float64 => is_number(to),
        DataType::Utf8 => to == DataType::Utf8,
    }
}
