// The rules on n, K, p, q, g0 and g1, that a board's header and a writer's job are both held to.
#![tactic(auto)]

ghost use Rattle.std.specs.Prelude.{◌≡◌, ◌<◌};
ghost use Rattle.sha256.specs.Message.{sha256};
ghost use Rattle.group.specs.Elements.{parameters_of};
ghost use Rattle.rules.specs.Group.{orders, derived, generators};
ghost use Rattle.rules.specs.Header.{sizes, limits};

use group::{Element, Exponent, Group};
use rules::Model;
use sha256::Hasher;

// The ranges of n and K on a kind of board.
pub fn sizes_good(model: Model, n: usize, k: usize) -> bool
    ensures { result ≡ sizes model n k }
{
    (model.least..=model.most).contains(&n) && (1..=model.ballots).contains(&k)
}

// The processes that are shown, and the ballots that are stored.
pub fn limits_good(model: Model, n: usize, k: usize) -> bool
    ensures { result ≡ limits model n k }
{
    n <= model.shows && k <= model.stores
}

// The rules on p and q.
#[tactic(auto, using(crate::proofs::Rules::prime_large), unfolding(rules::specs::Group::orders))]
pub fn orders_good(n: usize, k: usize, p: u32, q: u32) -> bool
    ensures { result ≡ orders n k p q }
{
    let order = q as usize;
    group::is_prime(p)
        && group::is_prime(q)
        && p < 0x8000_0000
        && (p - 1) % q == 0
        && n < order
        && k < order
}

// g1, made of the label, g0 and the counter.
pub fn derived(label: &[u8], p: u32, q: u32, g0: Element, counter: u8) -> Element
    requires { (0 < p) × (0 < q) }
    ensures { result.0 ≡ derived sha256 label.now p q g0.0 counter }
{
    let digest = Hasher::new()
        .update(label)
        .update(&g0.0.to_be_bytes())
        .update(&[counter])
        .finish();
    let base = fields::hashed_element(&digest, p);
    group::pow(p, base, Exponent((p - 1) / q))
}

// The rules on g0 and g1.
#[tactic(auto, unfolding(rules::specs::Group::generators))]
pub fn generators_good(label: &[u8], counter: u8, g: Group) -> bool
    requires { (0 < g.p) × (0 < g.q) }
    ensures { result ≡ generators sha256 label.now counter (parameters_of g) }
{
    group::is_element(g.p, g.q, g.g0)
        && g.g0 != Element(1)
        && g.g1 == derived(label, g.p, g.q, g.g0, counter)
        && g.g1 != Element(0)
        && g.g1 != Element(1)
        && g.g1 != g.g0
}
