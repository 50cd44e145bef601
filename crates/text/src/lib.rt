//! Bytes cut into rows and fields, and what a field says.
#![tactic(auto)]

ghost use Rattle.std.specs.Prelude.{◌≡◌, List, ℕ, ◌+◌, ◌-◌, ◌<◌, ◌≤◌, length, set, take, drop, eqb, IfSome};
ghost use Rattle.std.proofs.Math.Option.{Option as Maybe};
ghost use Rattle.sets.specs.Lists.{either, same as same_bytes};
ghost use Rattle.sets.specs.Bits.{every_right};
ghost use Rattle.sets.specs.Options.{option_of};
ghost use Rattle.klaim.specs.Rows.{split, comma, newline, at, number as number_field, lettered as lettered_field, site_field, var_field, is_self, is_wildcard, bind_field, rights_field, box_rights_field, loc_field, slot_field, towards};
ghost use Rattle.klaim.specs.declared.Loc.{Loc};
ghost use Rattle.klaim.specs.declared.Slot.{Slot};
ghost use Rattle.text.specs.Pieces.{end_of, edge_limit, Cut, Mark, comma_at};
ghost use Rattle.text.specs.Fields.{shape_of, digit_field, hit_at, bind, loc, slot, sites_to};

const NEWLINE: u8 = 10;

const COMMA: u8 = 44;

// No row form has more than 9 fields: where each begins, and one past the end of the last.
pub const EDGES: usize = 10;

// Where the row that begins at `from` ends: at the next newline, or at the end of the bytes.
pub fn row_end(s: &[u8], from: usize) -> usize
    ensures { result ≡ end_of newline s.now from }
{
    for i in from..s.len() {
        if s[i] == NEWLINE {
            return i;
        }
    }
    from.max(s.len())
}

// Keeps edge k, where it is one that a field of a row form needs.
fn keep(edges: &mut [usize; EDGES], k: usize, edge: usize)
    ensures { edges.new ≡ set edges.old k edge }
{
    if k < EDGES {
        edges[k] = edge;
    }
}

// Whether a byte ends a field. Letters and digits stand behind the comma: one test turns them away.
fn ends(b: u8) -> bool
    ensures { result ≡ either (eqb b comma) (eqb b newline) }
{
    b <= COMMA && (b == COMMA || b == NEWLINE)
}

// Where the field that begins at `from` ends: at the next comma or newline, or at the end of the bytes.
fn field_end(s: &[u8], from: usize) -> usize
    ensures { Mark s.now from result }
{
    for i in from..s.len() {
        if ends(s[i]) {
            return i;
        }
    }
    from.max(s.len())
}

// Whether byte i is a comma.
fn goes_on(s: &[u8], i: usize) -> bool
    ensures { result ≡ comma_at s.now i }
{
    i < s.len() && s[i] == COMMA
}

// A row cut into its fields: its bytes, without the one that ends it, the edges of its first 9 fields, and how many it has.
#[derive(Clone, Copy)]
pub struct CutRow<'a> {
    pub bytes: &'a [u8],
    edges: [usize; EDGES],
    count: usize,
    ghost is_cut: { Cut bytes.now edges count },
}

// The row that begins at `at`.
pub fn cut(s: &[u8], at: usize) -> CutRow<'_>
    requires { at ≤ length s.now }
    ensures bytes { result.bytes.now ≡ take (end_of newline s.now at - at) (drop at s.now) }
    ensures end { at + length result.bytes.now ≡ end_of newline s.now at }
{
    let mut edges = [0usize; EDGES];
    let mut n = 1;
    let mut end = field_end(s, at);
    keep(&mut edges, 1, end + 1 - at);
    // By hand: each turn goes on behind the comma at which the last one ended.
    while goes_on(s, end) {
        end = field_end(s, end + 1);
        n += 1;
        keep(&mut edges, n, end + 1 - at);
    }
    CutRow {
        bytes: &s[at..end],
        edges,
        count: n,
    }
}

impl<'a> CutRow<'a> {
    // How many fields it has.
    pub fn count(&self) -> usize
        ensures { result ≡ length (split comma self.now.bytes.now) }
    {
        self.count
    }

    // Field k, empty where the row has none.
    pub fn field(&self, k: usize) -> &'a [u8]
        requires { k + 1 < edge_limit }
        ensures { result.now ≡ at (split comma self.now.bytes.now) k }
    {
        if self.count <= k {
            return &self.bytes[..0];
        }
        let start = self.edges[k];
        let end = self.edges[k + 1] - 1;
        &self.bytes[start..end]
    }

    // What field k says.
    pub fn number(&self, k: usize) -> Option<u16>
        requires { k + 1 < edge_limit }
        ensures { option_of (λ n. n) result ≡ number_field (at (split comma self.now.bytes.now) k) }
    {
        number(self.field(k))
    }

    pub fn site(&self, k: usize) -> Option<u16>
        requires { k + 1 < edge_limit }
        ensures { option_of (λ n. n) result ≡ site_field (at (split comma self.now.bytes.now) k) }
    {
        site(self.field(k))
    }

    pub fn variable(&self, k: usize) -> Option<u16>
        requires { k + 1 < edge_limit }
        ensures { option_of (λ n. n) result ≡ var_field (at (split comma self.now.bytes.now) k) }
    {
        variable(self.field(k))
    }

    pub fn rights(&self, k: usize) -> Option<u8>
        requires { k + 1 < edge_limit }
        ensures result_value { option_of (λ n. n) result ≡ rights_field (at (split comma self.now.bytes.now) k) }
        ensures bounds { IfSome result (λ n. (0 < n) × (n ≤ every_right)) }
    {
        rights(self.field(k))
    }

    pub fn box_rights(&self, k: usize) -> Option<u8>
        requires { k + 1 < edge_limit }
        ensures result_value { option_of (λ n. n) result ≡ box_rights_field (at (split comma self.now.bytes.now) k) }
        ensures upper_bound { IfSome result (λ n. n ≤ every_right) }
    {
        box_rights(self.field(k))
    }

    pub fn toward(&self, k: usize) -> Option<Toward>
        requires { k + 1 < edge_limit }
        ensures { option_of sites_to result ≡ towards (at (split comma self.now.bytes.now) k) }
    {
        Toward::read(self.field(k))
    }

    pub fn read<T: Spoken>(&self, k: usize) -> Option<T>
        requires { k + 1 < edge_limit }
        ensures { option_of T.meaning result ≡ T.form (at (split comma self.now.bytes.now) k) }
    {
        T::read(self.field(k))
    }
}

// Whether two slices hold the same bytes.
pub fn same(a: &[u8], b: &[u8]) -> bool
    ensures { result ≡ same_bytes a.now b.now }
{
    a == b
}

// The digit that a byte says.
fn digit(b: u8) -> Option<u16>
    ensures value { option_of (λ n. n) result ≡ digit_field b }
    ensures low { IfSome result (λ n. n < 10) }
{
    match b {
        b'0'..=b'9' => Some(u16::from(b - b'0')),
        _ => None,
    }
}

// One to three bytes, the first of several no zero.
fn shaped(f: &[u8]) -> bool
    ensures { result ≡ shape_of f.now }
{
    match f {
        [] => false,
        [_] => true,
        [first, ..] => *first != b'0' && f.len() <= MOST_DIGITS,
    }
}

const MOST_DIGITS: usize = 3;

pub fn number(f: &[u8]) -> Option<u16>
    ensures { option_of (λ n. n) result ≡ number_field f.now }
{
    if !shaped(f) {
        return None;
    }
    let mut n = 0;
    for b in f {
        n = 10 * n + digit(*b)?;
    }
    Some(n)
}

// At least one digit, and nothing else: a decimal number of any length. What does not fit is as good as the largest.
pub fn decimal(f: &[u8]) -> Option<usize> {
    if f.is_empty() {
        return None;
    }
    let mut n: usize = 0;
    for b in f {
        if !b.is_ascii_digit() {
            return None;
        }
        n = n.saturating_mul(10).saturating_add(usize::from(*b - b'0'));
    }
    Some(n)
}

// A letter and a number.
pub fn lettered(f: &[u8], letter: u8) -> Option<u16>
    ensures { option_of (λ n. n) result ≡ lettered_field letter f.now }
{
    match f {
        [first, rest @ ..] if *first == letter => number(rest),
        _ => None,
    }
}

pub fn site(f: &[u8]) -> Option<u16>
    ensures { option_of (λ n. n) result ≡ site_field f.now }
{
    lettered(f, b's')
}

pub fn variable(f: &[u8]) -> Option<u16>
    ensures { option_of (λ n. n) result ≡ var_field f.now }
{
    lettered(f, b'u')
}

pub fn is_self(f: &[u8]) -> bool
    ensures { result ≡ is_self f.now }
{
    same(f, b"self")
}

fn is_wildcard(f: &[u8]) -> bool
    ensures { result ≡ is_wildcard f.now }
{
    same(f, b"_")
}

// The variable of `!u`.
pub fn binder(f: &[u8]) -> Option<u16>
    ensures { option_of bind result ≡ bind_field f.now }
{
    match f {
        [first, rest @ ..] if *first == b'!' => variable(rest),
        _ => None,
    }
}

// 1 if byte i of a field is the letter, else 0.
fn hit(f: &[u8], i: usize, letter: u8) -> usize
    ensures { (result ≡ hit_at letter f.now i) × (result ≤ 1) }
{
    if i < f.len() && f[i] == letter {
        return 1;
    }
    0
}

// The rights of a field: each letter stands behind those that are there of the letters before it.
pub fn rights(f: &[u8]) -> Option<u8>
    ensures result_value { option_of (λ n. n) result ≡ rights_field f.now }
    ensures bounds { IfSome result (λ n. (0 < n) × (n ≤ every_right)) }
{
    if f.is_empty() {
        return None;
    }
    let o = hit(f, 0, b'o');
    let i = hit(f, o, b'i');
    let r = hit(f, o + i, b'r');
    let e = hit(f, o + i + r, b'e');
    let a = hit(f, o + i + r + e, b'a');
    if o + i + r + e + a != f.len() {
        return None;
    }
    Some((o + 2 * i + 4 * r + 8 * e + 16 * a) as u8)
}

// The rights of a field of a D row, where `-` is the empty set.
pub fn box_rights(f: &[u8]) -> Option<u8>
    ensures result_value { option_of (λ n. n) result ≡ box_rights_field f.now }
    ensures upper_bound { IfSome result (λ n. n ≤ every_right) }
{
    if same(f, b"-") {
        return Some(0);
    }
    rights(f)
}

// Stands for no rights in the table of the sandboxes, where 0 is the empty set; greater than every set. No option: the definition of
// that table puts the numbers of rows over numbers.
pub const UNSAID: u8 = 128;

// What may stand as a field of a tuple or a template, read off its bytes.
pub trait Spoken: Copy {
    ghost Meaning: { Type 0 };

    ghost meaning: { Self → Meaning };

    ghost form: { List ℕ → Maybe Meaning };

    fn read(f: &[u8]) -> Option<Self>
        ensures { option_of meaning result ≡ form f.now };
}

// A field of a tuple.
#[derive(Clone, Copy)]
pub struct SiteName(pub u16);

impl Spoken for SiteName {
    ghost Meaning = { ℕ };

    ghost meaning = { λ s. s.0 };

    ghost form = { site_field };

    fn read(f: &[u8]) -> Option<SiteName> {
        Some(SiteName(site(f)?))
    }
}

// A target, or a field of `out`.
#[derive(Clone, Copy)]
pub enum Target {
    Site(u16),
    Here,
    Variable(u16),
}

impl Spoken for Target {
    ghost Meaning = { Loc };

    ghost meaning = { loc };

    ghost form = { loc_field };

    fn read(f: &[u8]) -> Option<Target> {
        if let Some(s) = site(f) {
            return Some(Target::Site(s));
        }
        if is_self(f) {
            return Some(Target::Here);
        }
        Some(Target::Variable(variable(f)?))
    }
}

// A field of `in` and `read`.
#[derive(Clone, Copy)]
pub enum Field {
    Value(Target),
    Binder(u16),
    Wildcard,
}

impl Spoken for Field {
    ghost Meaning = { Slot };

    ghost meaning = { slot };

    ghost form = { slot_field };

    fn read(f: &[u8]) -> Option<Field> {
        if let Some(u) = binder(f) {
            return Some(Field::Binder(u));
        }
        if is_wildcard(f) {
            return Some(Field::Wildcard);
        }
        Some(Field::Value(Target::read(f)?))
    }
}

// What a D row speaks of: a site, or the site at which the agent is.
#[derive(Clone, Copy)]
pub enum Toward {
    Site(u16),
    Own,
}

impl Toward {
    pub fn read(f: &[u8]) -> Option<Toward>
        ensures { option_of sites_to result ≡ towards f.now }
    {
        if let Some(s) = site(f) {
            return Some(Toward::Site(s));
        }
        if is_self(f) {
            return Some(Toward::Own);
        }
        None
    }
}
