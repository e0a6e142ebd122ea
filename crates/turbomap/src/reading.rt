// What the words of a command line ask for.

ghost use Rattle.std.specs.Prelude.{◌≡◌, ◌≤◌, true, option_map};
ghost use Rattle.tm_bits.specs.Limits.{most_inputs};
ghost use Rattle.tm_texts.specs.Limits.{most_lag, most_back, least_sample, most_sample};
ghost use Rattle.turbomap.specs.Names.{are_names, files_of};

/// What the words ask for.
#[derive(Clone, Copy)]
pub enum Reading<'a> {
    Map(MapWords<'a>),
    Check(CheckWords<'a>),
    Sim(SimWords<'a>),
    /// `show IN`: the name of a file.
    Show(&'a str),
    Large(LargeWords),
    Bound(BoundWords<'a>),
}

/// The rows of the covers of a mapped text.
#[derive(Clone, Copy)]
pub enum Rows {
    /// One for each row of bits of value 1.
    Single,
    /// Prime ones, of which none can be left out.
    Prime,
}

/// `map K D IN OUT` and `map K D IN OUT CERT`, or the same with `prime`, which asks for prime rows: tables of at most `k` inputs, lags of
/// at most `d`, and the names of two files or three.
#[derive(Clone, Copy)]
pub struct MapWords<'a> {
    pub rows: Rows,
    pub k: u8,
    pub d: u8,
    pub input: &'a str,
    pub output: &'a str,
    pub certificate: Option<&'a str>,
    pub ghost tables: { (2 ≤ k) × (k ≤ most_inputs) },
    pub ghost lags: { d ≤ most_lag },
    pub ghost named: { are_names (files_of input.now output.now (option_map (λ name. name.now) certificate)) ≡ true },
}

/// `check K D IN OUT CERT`: the same numbers, and the names of three files.
#[derive(Clone, Copy)]
pub struct CheckWords<'a> {
    pub k: u8,
    pub d: u8,
    pub input: &'a str,
    pub output: &'a str,
    pub certificate: &'a str,
    pub ghost tables: { (2 ≤ k) × (k ≤ most_inputs) },
    pub ghost lags: { d ≤ most_lag },
}

/// `sim IN VECTORS OUT`: the names of three files.
#[derive(Clone, Copy)]
pub struct SimWords<'a> {
    pub input: &'a str,
    pub vectors: &'a str,
    pub output: &'a str,
}

/// `large N K D`: the number of a sample, and the numbers with which it is mapped.
#[derive(Clone, Copy)]
pub struct LargeWords {
    pub number: u32,
    pub k: u8,
    pub d: u8,
    pub ghost sample: { (least_sample ≤ number) × (number ≤ most_sample) },
    pub ghost tables: { (2 ≤ k) × (k ≤ most_inputs) },
    pub ghost lags: { d ≤ most_lag },
}

/// `bound K D B IN`: tables of at most `k` inputs, up to `d` registers moved forward and `b` backward, and the name of a file.
#[derive(Clone, Copy)]
pub struct BoundWords<'a> {
    pub k: u8,
    pub d: u8,
    pub b: u8,
    pub input: &'a str,
    pub ghost tables: { (2 ≤ k) × (k ≤ most_inputs) },
    pub ghost lags: { d ≤ most_lag },
    pub ghost back: { b ≤ most_back },
}
