//! What the lists of a problem are made of.

ghost use Rattle.std.specs.Prelude.{◌≡◌, ◌+◌, ◌-◌, ◌<◌, ◌^◌, ◌++◌, OnOk, string_bytes};
ghost use Rattle.std.specs.List.{flat_map, range_with_len};
ghost use Rattle.cpt_gen.specs.Texts.{road_ends, road, road_time};

use std::alloc::AllocError;

/// A part that stands once a place, a package or a road.
#[derive(Clone, Copy)]
pub(crate) enum Part {
    Place,
    Package,
    /// A package is at the first place.
    AtFirst,
    Road,
    /// How long a road takes.
    Time,
    /// A package is to be at the last place.
    AtLast,
}

impl Part {
    ghost use Rattle.cpt_gen.specs.Parts.{part_text};

    /// Writes the part with number `i`, a blank before it, of the problem of size `n`.
    fn push(self, text: &mut String, n: u32, i: u32) -> Result<(), AllocError>
        requires { i < 2 ^ 32 - 1 }
        ensures { OnOk result (string_bytes text.new ≡ string_bytes text.old ++ part_text n self i) }
    {
        match self {
            Part::Place => write!(text, " l{i}"),
            Part::Package => write!(text, " p{i}"),
            Part::AtFirst => write!(text, " (at p{i} l0)"),
            Part::Road => push_road(text, i),
            Part::Time => push_road_time(text, i),
            Part::AtLast => write!(text, " (at p{i} l{n})"),
        }
    }

    /// Writes `count` parts, with the numbers from `first` on.
    pub(crate) fn push_row(
        self,
        text: &mut String,
        n: u32,
        first: u32,
        count: u32,
    ) -> Result<(), AllocError>
        requires { first + count < 2 ^ 32 }
        ensures { OnOk result (string_bytes text.new ≡ string_bytes text.old ++ flat_map (part_text n self) (range_with_len first count)) }
    {
        for k in 0..count {
            self.push(text, n, first + k)?;
        }
        Ok(())
    }
}

/// Writes the ends of road `i`, and the parenthesis behind them.
fn push_road_ends(text: &mut String, i: u32) -> Result<(), AllocError>
    requires { i < 2 ^ 32 - 1 }
    ensures { OnOk result (string_bytes text.new ≡ string_bytes text.old ++ road_ends i) }
{
    write!(text, " l{i} l{})", i + 1)
}

fn push_road(text: &mut String, i: u32) -> Result<(), AllocError>
    requires { i < 2 ^ 32 - 1 }
    ensures { OnOk result (string_bytes text.new ≡ string_bytes text.old ++ road i) }
{
    text.push_str(" (road")?;
    push_road_ends(text, i)
}

fn push_road_time(text: &mut String, i: u32) -> Result<(), AllocError>
    requires { i < 2 ^ 32 - 1 }
    ensures { OnOk result (string_bytes text.new ≡ string_bytes text.old ++ road_time i) }
{
    text.push_str(" (= (road-time")?;
    push_road_ends(text, i)?;
    text.push_str(" 3)")?;
    Ok(())
}
