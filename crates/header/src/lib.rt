// The header of a board.
#![tactic(auto)]

ghost use Rattle.std.specs.Prelude.{◌≡◌, ◌≤◌, length};
ghost use Rattle.group.specs.Elements.{parameters_of};
ghost use Rattle.rules.specs.Records.{header_length};
ghost use Rattle.rules.specs.Header.{header};
ghost use Rattle.header.specs.Heads.{HeaderReads};

use group::Group;
use rules::{Model, Refusal};
use statements::Setup;

// What is read from a sound header.
#[derive(Clone, Copy)]
pub struct Head {
    pub n: usize,
    pub k: usize,
    pub setup: Setup,
}

// p, q, g0 and g1 as the record shows them.
fn shown(board: &[u8]) -> Group
    requires { header_length ≤ length board.now }
    ensures { parameters_of result ≡ (header board.now).group }
{
    Group {
        p: fields::number4(board, 5),
        q: fields::number4(board, 9),
        g0: fields::as_element(board, 13),
        g1: fields::as_element(board, 18),
    }
}

// The record that a board of a model starts with.
pub fn read_header(board: &[u8], model: Model) -> Result<Head, Refusal>
    ensures { HeaderReads model board.now result }
{
    if board.len() < layout::HEADER_LENGTH {
        return Err(Refusal::Length);
    }
    if !frames::has_mark(board, 0, model.mark) {
        return Err(Refusal::Mark);
    }
    let n = frames::byte(board, 2);
    let k = frames::number(board, 3);
    let group = shown(board);
    if !parameters::sizes_good(model, n, k) {
        return Err(Refusal::Sizes);
    }
    let few = parameters::limits_good(model, n, k);
    let ordered = parameters::orders_good(n, k, group.p, group.q);
    if !few {
        return Err(Refusal::Limits);
    }
    if !ordered {
        return Err(Refusal::Orders);
    }
    if !parameters::generators_good(&board[22..layout::HEADER_LENGTH], board[17], group) {
        return Err(Refusal::Generators);
    }
    Ok(Head {
        n,
        k,
        setup: Setup::new(group),
    })
}
