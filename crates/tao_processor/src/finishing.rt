//! What a Done does to requests and holdings.
ghost use Rattle.std.specs.Prelude.{◌≡◌, ℕ, ◌+◌, ◌^◌, ◌<◌, ◌≤◌, true, false, length, vec_len, All};
ghost use Rattle.tao_model.specs.Events.{is_pad_op};
ghost use Rattle.tao_requests.specs.State.{request_at, block_of, IsUnderWay};
ghost use Rattle.tao_holdings.specs.Holding.{IsPathHeld};
ghost use Rattle.tao_processor.specs.Steps.{Settles, Finishes, LeavesBlocks, is_for_block};

use tao_base::Block;
use tao_holdings::Holdings;
use tao_requests::{Kind, Requests};

/// Settles a real arrival with the value found on its path, and evicts the path.
pub(crate) fn finish(
    holdings: &mut Holdings,
    requests: &mut Requests,
    values: &mut Vec<Block>,
    arrival: u64,
    leaf: u32,
    word: u32,
)
    requires leaf { leaf < 2 ^ holdings.old.shape.l }
    requires path { IsPathHeld holdings.old leaf }
    requires shape { requests.old.shape ≡ holdings.old.shape }
    requires arrived { arrival < length requests.old.requests }
    requires under_way { is_for_block requests.old arrival ≡ true → IsUnderWay requests.old.requests arrival }
    requires on_block { is_for_block requests.old arrival ≡ true → is_pad_op (request_at requests.old.requests arrival).op ≡ false }
    requires block { is_for_block requests.old arrival ≡ true → block_of requests.old.requests arrival < holdings.old.shape.n }
    requires some { 1 ≤ vec_len values.old }
    requires each { All (λ value. length value ≡ holdings.old.shape.b) values.old.items }
    ensures done { Finishes arrival leaf word holdings.old holdings.new requests.old requests.new }
    ensures values { LeavesBlocks holdings.old.shape.b (vec_len values.old) (vec_len values.new) values.new.items }
{
    settle_where_real(holdings, requests, values, arrival, leaf, word);
    holdings.evict(leaf);
}

fn settle_where_real(
    holdings: &mut Holdings,
    requests: &mut Requests,
    values: &mut Vec<Block>,
    arrival: u64,
    leaf: u32,
    word: u32,
)
    requires leaf { leaf < 2 ^ holdings.old.shape.l }
    requires shape { requests.old.shape ≡ holdings.old.shape }
    requires arrived { arrival < length requests.old.requests }
    requires under_way { is_for_block requests.old arrival ≡ true → IsUnderWay requests.old.requests arrival }
    requires on_block { is_for_block requests.old arrival ≡ true → is_pad_op (request_at requests.old.requests arrival).op ≡ false }
    requires block { is_for_block requests.old arrival ≡ true → block_of requests.old.requests arrival < holdings.old.shape.n }
    requires some { 1 ≤ vec_len values.old }
    requires each { All (λ value. length value ≡ holdings.old.shape.b) values.old.items }
    ensures done { Settles arrival leaf word holdings.old holdings.new requests.old requests.new }
    ensures values { LeavesBlocks holdings.old.shape.b (vec_len values.old) (vec_len values.new) values.new.items }
{
    match requests.kind_of(arrival) {
        Kind::Real => settle(holdings, requests, values, arrival, leaf, word),
        Kind::Fake => {}
    }
}

fn settle(
    holdings: &mut Holdings,
    requests: &mut Requests,
    values: &mut Vec<Block>,
    arrival: u64,
    leaf: u32,
    word: u32,
)
    requires real { is_for_block requests.old arrival ≡ true }
    requires leaf { leaf < 2 ^ holdings.old.shape.l }
    requires shape { requests.old.shape ≡ holdings.old.shape }
    requires arrived { arrival < length requests.old.requests }
    requires under_way { IsUnderWay requests.old.requests arrival }
    requires on_block { is_pad_op (request_at requests.old.requests arrival).op ≡ false }
    requires block { block_of requests.old.requests arrival < holdings.old.shape.n }
    requires some { 1 ≤ vec_len values.old }
    requires each { All (λ value. length value ≡ holdings.old.shape.b) values.old.items }
    ensures done { Settles arrival leaf word holdings.old holdings.new requests.old requests.new }
    ensures values { LeavesBlocks holdings.old.shape.b (vec_len values.old) (vec_len values.new) values.new.items }
{
    let block = requests.block_of(arrival);
    let mut value = take_value(values);
    holdings.found(leaf, block, &mut value);
    requests.settle(arrival, &mut value);
    holdings.put(block, word, value);
}

fn take_value(values: &mut Vec<Block>) -> Block
    requires some { 1 ≤ vec_len values.old }
    ensures value { (b : ℕ) → All (λ value. length value ≡ b) values.old.items → length result ≡ b }
    ensures left { (b : ℕ) → All (λ value. length value ≡ b) values.old.items → All (λ value. length value ≡ b) values.new.items }
    ensures len { vec_len values.new + 1 ≡ vec_len values.old }
{
    match values.pop() {
        Some(value) => value,
        None => unreachable!(),
    }
}
