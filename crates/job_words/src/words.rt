//! The words of commands behind the name and the signature.
ghost use Rattle.std.specs.Prelude.{◌≤◌};

/// The words of a command over one netlist.
#[derive(Clone, Copy)]
pub struct NetWords<'a> {
    /// The name of the netlist's file, whose ending tells its form.
    pub net: &'a str,
    /// The most terms that a stage may have, 1 to 262,144.
    pub terms: u32,
    /// How many cycles come after the first, 0 to 4,096.
    pub cycles: u32,
    ghost few: { cycles ≤ 4096 },
}

/// The words of a command over one netlist whose circuit may be made simpler.
#[derive(Clone, Copy)]
pub struct SimplifyWords<'a> {
    /// The name of the netlist's file, whose ending tells its form.
    pub net: &'a str,
    /// The most terms that a stage may have, 1 to 262,144.
    pub terms: u32,
    /// How many cycles come after the first, 0 to 4,096.
    pub cycles: u32,
    /// Whether the circuit of all cycles is made simpler.
    pub simplify: bool,
    ghost few: { cycles ≤ 4096 },
}

/// The words of a command over one netlist that has no stages.
#[derive(Clone, Copy)]
pub struct CycleWords<'a> {
    /// The name of the netlist's file, whose ending tells its form.
    pub net: &'a str,
    /// How many cycles come after the first, 0 to 4,096.
    pub cycles: u32,
    ghost few: { cycles ≤ 4096 },
}

/// The words of a command over a netlist and a second file, whose circuits may be made simpler.
#[derive(Clone, Copy)]
pub struct SimplifyPairWords<'a> {
    /// The name of the netlist's file, whose ending tells its form.
    pub net: &'a str,
    /// The name of the second file.
    pub other: &'a str,
    /// The most terms that a stage may have, 1 to 262,144.
    pub terms: u32,
    /// How many cycles come after the first, 0 to 4,096.
    pub cycles: u32,
    /// Whether the circuit of all cycles is made simpler.
    pub simplify: bool,
    ghost few: { cycles ≤ 4096 },
}

/// The words of a command over a netlist and a certificate.
#[derive(Clone, Copy)]
pub struct PairWords<'a> {
    /// The name of the netlist's file, whose ending tells its form.
    pub net: &'a str,
    /// The name of the second file.
    pub other: &'a str,
    /// The most terms that a running sum may have, 1 to 1,048,576.
    pub terms: u32,
    /// How many cycles come after the first, 0 to 4,096.
    pub cycles: u32,
    ghost few: { cycles ≤ 4096 },
}

/// The words of a command over a netlist and a second file that has no stages.
#[derive(Clone, Copy)]
pub struct CyclePairWords<'a> {
    /// The name of the netlist's file, whose ending tells its form.
    pub net: &'a str,
    /// The name of the second file.
    pub other: &'a str,
    /// How many cycles come after the first, 0 to 4,096.
    pub cycles: u32,
    ghost few: { cycles ≤ 4096 },
}

/// The words of a command over a netlist and values.
#[derive(Clone, Copy)]
pub struct EvalWords<'a> {
    /// The name of the netlist's file, whose ending tells its form.
    pub net: &'a str,
    /// The values, each `0x` and 1 to 32 hexadecimal digits.
    pub values: &'a [String],
    /// How many cycles come after the first, 0 to 4,096.
    pub cycles: u32,
    ghost few: { cycles ≤ 4096 },
}

/// The words of a command over one netlist in BLIF that has stages and no cycles.
#[derive(Clone, Copy)]
pub struct ComposeWords<'a> {
    /// The name of the netlist's file.
    pub net: &'a str,
    /// The most terms that a stage may have, 1 to 262,144.
    pub terms: u32,
}
