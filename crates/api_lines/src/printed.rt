//! Values that are put in the order of their texts, which are printed.
ghost use Rattle.std.specs.Prelude.{◌≡◌, ℕ, List as Items, map, IfOk, Some, refl, bytes_eq};
ghost use Rattle.std.specs.Ordering.{nat_cmp, on};
ghost use Rattle.std.specs.Cmp.{partial_equiv_from_equiv, on_equiv, on_po, on_total};
ghost use Rattle.std.specs.Cmp.Lexicographic.{slice_cmp, nat_list_eq_equiv, nat_list_cmp_total, texts_po, texts_ties};
ghost use Rattle.api_lines.specs.OrderedTexts.{IsArranged};

use go_base::list::List;
use go_base::memory::NoMemory;
use go_base::text::Text;
use std::alloc::Global;
use std::cmp::Ordering;

/// What has a text.
pub trait Printable {
    /// The text.
    ghost text: { Self → Items ℕ };

    /// The text.
    fn text(&self, alloc: Global) -> Result<Text, NoMemory>
        ensures { IfOk result (λ printed. printed ≡ text self.now) };
}

// A value with its text, by which it is ordered.
#[derive(Drop)]
struct Printed<T: Printable> {
    text: Text,
    value: T,
    ghost shown: { text ≡ T.text value },
}

impl<T: Printable> Printed<T> {
    fn into_value(self) -> T
        ensures { result ≡ self.value }
    {
        let Printed { text: _, value } = self;
        value
    }
}

impl<T: Printable> PartialEq for Printed<T> {
    ghost eq = { on (λ p. p.text) bytes_eq };

    ghost laws = { partial_equiv_from_equiv (on_equiv (λ p. p.text) nat_list_eq_equiv) };

    fn eq(&self, other: &Printed<T>) -> bool {
        self.text == other.text
    }
}

impl<T: Printable> Eq for Printed<T> {
    ghost laws = { on_equiv (λ p. p.text) nat_list_eq_equiv };
}

impl<T: Printable> PartialOrd for Printed<T> {
    ghost partial_cmp = { λ a b. Some (slice_cmp nat_cmp a.text b.text) };

    ghost laws = { on_po (λ p. p.text) texts_po };

    fn partial_cmp(&self, other: &Printed<T>) -> Option<Ordering> {
        Some(self.cmp(other))
    }
}

impl<T: Printable> Ord for Printed<T> {
    ghost cmp = { λ a b. slice_cmp nat_cmp a.text b.text };

    ghost total = { on_total (λ p. p.text) nat_list_cmp_total };

    ghost matches_partial_cmp = { λ a b. refl };

    ghost matches_eq = { λ a b. texts_ties a.text b.text };

    fn cmp(&self, other: &Printed<T>) -> Ordering {
        self.text.cmp(&other.text)
    }
}

fn with_text<T: Printable + Drop>(alloc: Global, value: T) -> Result<Printed<T>, NoMemory>
    ensures { IfOk result (λ p. p.value ≡ value) }
{
    let text = value.text(alloc)?;
    Ok(Printed { text, value })
}

// The values with their texts.
fn with_texts<T: Printable + Drop>(
    alloc: Global,
    values: Vec<T>,
) -> Result<Vec<Printed<T>>, NoMemory>
    ensures { IfOk result (λ all. map (λ p. p.value) all.items ≡ values.items) }
{
    let mut all = Vec::with_capacity(alloc, values.len())?;
    for value in values {
        all.push(with_text(alloc, value)?)?;
    }
    Ok(all)
}

// The values without their texts, in the same order.
fn without_texts<T: Printable + Drop>(
    alloc: Global,
    all: Vec<Printed<T>>,
) -> Result<Vec<T>, NoMemory>
    ensures { IfOk result (λ values. values.items ≡ map (λ p. p.value) all.items) }
{
    let values = all.into_iter().map(|p| p.into_value()).collect(alloc)?;
    Ok(values)
}

fn in_order<T: Printable + Drop>(
    alloc: Global,
    mut all: Vec<Printed<T>>,
) -> Result<List<T>, NoMemory>
    ensures { IfOk result (IsArranged T.text (map (λ p. p.value) all.items)) }
{
    all.sort()?;
    all.dedup();
    let values = without_texts(alloc, all)?;
    Ok(List::from_vec(values))
}

/// The values, each text once, in the order of the texts. It takes few comparisons where they came in order.
pub fn by_texts<T: Printable + Drop>(alloc: Global, values: Vec<T>) -> Result<List<T>, NoMemory>
    ensures { IfOk result (IsArranged T.text values.items) }
{
    let all = with_texts(alloc, values)?;
    in_order(alloc, all)
}
