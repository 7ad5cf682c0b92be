//! Lists of literals that short ones have in themselves.
ghost use Rattle.std.specs.Prelude.{◌≡◌, ◌≤◌, [], ◌∷◌, length, take, IfOk, IfSome, OnOk, OnErr};
ghost use Rattle.std.specs.declared.cmp.Ordering.TheVariants.{Less};
ghost use Rattle.std.specs.List.Sorted.{IsStrictlySortedBy};
ghost use Rattle.lj_clause.specs.Literal.{lit_cmp};
ghost use Rattle.lj_clause.specs.LiteralSet.{from_literals};
ghost use Rattle.lj_clause.specs.inner.LiteralList.{literals_in};

use crate::lit::Lit;
use crate::memory::NoMemory;
use std::alloc::Global;
use std::sync::Arc;

/// Literals of a clause. Up to three stand in the list itself, so that they take no memory of their own. More are
/// shared by whoever holds a copy: up to sixteen in one block of memory beside the count of holders, others in a `Vec`.
#[derive(Debug, Drop)]
pub enum LiteralList {
    Nothing,
    /// So many of these literals, from the first on.
    Inline { count: u8, lits: [Lit; 3] },
    Eight { count: u8, lits: Arc<[Lit; 8]> },
    Sixteen { count: u8, lits: Arc<[Lit; 16]> },
    Many(Arc<Vec<Lit>>),
}

impl LiteralList {
    /// The literals, each once, in strict order, if they are so few that they stand in the list itself. None also where
    /// one stands twice. Takes constant time.
    #[inline(always)]
    pub fn inline(lits: &[Lit]) -> Option<LiteralList>
        ensures rising { IfSome result (λ list. IsStrictlySortedBy lit_cmp (literals_in list)) }
        ensures same { IfSome result
            (λ list. from_literals (literals_in list) ≡ from_literals lits.now) }
    {
        if lits.is_empty() {
            return Some(LiteralList::Nothing);
        }
        let inline = up_to_three(lits)?;
        Some(LiteralList::Inline {
            count: lits.len() as u8,
            lits: inline,
        })
    }

    /// These literals. Takes time linear in them.
    ///
    /// # Errors
    /// [`NoMemory`] where a growth was refused.
    pub fn many(alloc: Global, lits: &[Lit]) -> Result<LiteralList, NoMemory>
        ensures { IfOk result (λ list. literals_in list ≡ lits.now) }
    {
        match lits.first() {
            Some(first) if lits.len() <= 8 => Ok(LiteralList::Eight {
                count: lits.len() as u8,
                lits: Arc::new(alloc, filled(*first, lits))?,
            }),
            Some(first) if lits.len() <= 16 => Ok(LiteralList::Sixteen {
                count: lits.len() as u8,
                lits: Arc::new(alloc, filled(*first, lits))?,
            }),
            _ => Ok(LiteralList::Many(Arc::new(alloc, Vec::from_slice(alloc, lits)?)?)),
        }
    }

    /// Becomes the list of the first of three literals, so many. Takes constant time.
    #[inline(always)]
    pub fn put_inline(&mut self, size: usize, inline: [Lit; 3])
        requires { size ≤ 3 }
        ensures { literals_in self.new ≡ take size inline }
    {
        if let LiteralList::Inline { lits, .. } = self {
            *lits = inline;
            if let LiteralList::Inline { count, .. } = self {
                *count = size as u8;
            }
            return;
        }
        *self = LiteralList::Inline {
            count: size as u8,
            lits: inline,
        };
    }

    /// Becomes the list of the first of eight literals, so many, in the block of memory that it has, where nobody shares it.
    /// Takes constant time.
    ///
    /// # Errors
    /// [`NoMemory`] where a growth was refused, and then nothing has changed.
    #[inline(always)]
    pub fn put_eight(&mut self, alloc: Global, size: usize, eight: [Lit; 8]) -> Result<(), NoMemory>
        requires { size ≤ 8 }
        ensures ok { OnOk result (literals_in self.new ≡ take size eight) }
        ensures err { OnErr result (literals_in self.new ≡ literals_in self.old) }
    {
        if let LiteralList::Eight { count, lits } = self {
            if let Some(scratch) = Arc::get_mut(lits) {
                *scratch = eight;
                *count = size as u8;
                return Ok(());
            }
        }
        *self = LiteralList::Eight {
            count: size as u8,
            lits: Arc::new(alloc, eight)?,
        };
        Ok(())
    }

    /// The literals, in order. Takes constant time.
    #[inline]
    pub fn as_slice(&self) -> &[Lit]
        ensures { result.now ≡ literals_in self.now }
    {
        if let LiteralList::Inline { count, lits } = self {
            return first_lits(*count, lits);
        }
        match self {
            LiteralList::Nothing => &[],
            LiteralList::Inline { count, lits } => first_lits(*count, lits),
            LiteralList::Eight { count, lits } => first_lits(*count, &**lits),
            LiteralList::Sixteen { count, lits } => first_lits(*count, &**lits),
            LiteralList::Many(lits) => lits,
        }
    }

    /// The same literals for another holder. Takes constant time.
    ///
    /// # Errors
    /// [`NoMemory`] where the share was refused.
    #[inline]
    pub fn try_clone(&self) -> Result<LiteralList, NoMemory>
        ensures { IfOk result (λ list. literals_in list ≡ literals_in self.now) }
    {
        Ok(match self {
            LiteralList::Nothing => LiteralList::Nothing,
            LiteralList::Inline { count, lits } => LiteralList::Inline {
                count: *count,
                lits: *lits,
            },
            LiteralList::Eight { count, lits } => LiteralList::Eight {
                count: *count,
                lits: Arc::try_clone(lits)?,
            },
            LiteralList::Sixteen { count, lits } => LiteralList::Sixteen {
                count: *count,
                lits: Arc::try_clone(lits)?,
            },
            LiteralList::Many(lits) => LiteralList::Many(Arc::try_clone(lits)?),
        })
    }
}

/// Up to three literals in strict order, and behind them what means nothing: none where one stands twice, or there are more.
/// Takes constant time.
#[inline(always)]
pub(crate) fn up_to_three(lits: &[Lit]) -> Option<[Lit; 3]>
    ensures count { IfSome result (λ _. length lits.now ≤ 3) }
    ensures rising { IfSome result
        (λ scratch. IsStrictlySortedBy lit_cmp (take (length lits.now) scratch)) }
    ensures same { IfSome result
        (λ scratch. from_literals (take (length lits.now) scratch) ≡ from_literals lits.now) }
{
    match lits {
        [] => Some([Lit::of(1, false); 3]),
        [a] => Some([*a; 3]),
        [a, b] => {
            let (first, last) = two(*a, *b)?;
            Some([first, last, last])
        }
        [a, b, c] => three(*a, *b, *c),
        _ => None,
    }
}

/// Two literals, the smaller first, if they differ.
#[inline(always)]
fn two(a: Lit, b: Lit) -> Option<(Lit, Lit)>
    ensures rising { IfSome result (λ lits. lit_cmp lits.0 lits.1 ≡ Less) }
    ensures same { IfSome result
        (λ lits. from_literals (lits.0 ∷ lits.1 ∷ []) ≡ from_literals (a ∷ b ∷ [])) }
{
    if a < b {
        Some((a, b))
    } else if b < a {
        Some((b, a))
    } else {
        None
    }
}

/// Three literals in strict order, if all differ.
#[inline(always)]
fn three(a: Lit, b: Lit, c: Lit) -> Option<[Lit; 3]>
    ensures rising { IfSome result (λ lits. IsStrictlySortedBy lit_cmp lits) }
    ensures same { IfSome result (λ lits. from_literals lits ≡ from_literals (a ∷ b ∷ c ∷ [])) }
{
    let (first, last) = two(a, b)?;
    if c < first {
        Some([c, first, last])
    } else if last < c {
        Some([first, last, c])
    } else if first < c && c < last {
        Some([first, c, last])
    } else {
        None
    }
}

/// These literals, and behind them the one that fills the room.
fn filled<const N: usize>(filler: Lit, lits: &[Lit]) -> [Lit; N]
    requires { length lits.now ≤ N }
    ensures { take (length lits.now) result ≡ lits.now }
{
    let mut scratch = [filler; N];
    scratch[..lits.len()].copy_from_slice(lits);
    scratch
}

/// So many of the literals, from the first on.
#[inline]
fn first_lits(count: u8, lits: &[Lit]) -> &[Lit]
    ensures { result.now ≡ take count lits.now }
{
    &lits[..usize::from(count).min(lits.len())]
}
