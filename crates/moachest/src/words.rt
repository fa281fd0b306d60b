// The words of an open tree, and those of an answer.
ghost use Rattle.std.specs.Prelude.{◌≡◌, ◌&&◌, false, ◌≤◌, ◌<◌, length, get_or, ltb, MatchResult};
ghost use Rattle.seal.specs.Bytes.{splice};
ghost use Rattle.moachest.specs.Words.{tree_of, stored, tree_holds, answer_holds};

use node::info::BTreeInfo;
use node::order::Order;
use tree::editor::Tree;
use tree::refusal::{Refusal, check};

const ANSWER_WORDS: usize = 8;

// Words stored, from the first on.
#[tactic(auto, unfolding(seal::specs::Bytes::splice))]
pub fn put(words: &mut [u64], first: &[u64])
    requires { length first.now ≤ length words.old }
    ensures { words.new ≡ splice words.old 0 first.now }
{
    words[..first.len()].copy_from_slice(first);
}

// The tree that the words are: 1 where they are too few.
#[tactic(auto, unfolding(crate::specs::Words::tree_of, crate::specs::Words::info_of))]
pub fn load(tree: &[u64]) -> Result<Tree, Refusal>
    ensures { MatchResult result (λ t. (14 ≤ length tree.now) × (t ≡ tree_of tree.now))
        (λ e. (length tree.now < 14) × (e ≡ Refusal.Lent)) }
{
    let [
        root,
        used,
        flags,
        node_size,
        key_size,
        val_size,
        longest_key,
        longest_val,
        key_count,
        node_count,
        by_id,
        subtype,
        order,
        xid,
        ..
    ] = *tree
    else {
        return Err(Refusal::Lent);
    };
    Ok(Tree {
        root: root as usize,
        used: used as usize,
        info: BTreeInfo {
            flags,
            node_size,
            key_size,
            val_size,
            longest_key,
            longest_val,
            key_count,
            node_count,
        },
        by_id: by_id != 0,
        subtype,
        order: Order { code: order },
        xid,
    })
}

// The tree that the words are, of a call that also writes an answer's words.
pub fn load_for(tree: &[u64], answer: &[u64]) -> Result<Tree, Refusal>
    ensures { MatchResult result (λ t. (14 ≤ length tree.now) × (8 ≤ length answer.now) × (t ≡ tree_of tree.now))
        (λ e. ((tree_holds tree.now && answer_holds answer.now) ≡ false) × (e ≡ Refusal.Lent)) }
{
    let t = load(tree)?;
    check(Refusal::Lent, answer.len() >= ANSWER_WORDS)?;
    Ok(t)
}

// Whether the words are as `store` leaves them: the one that is a yes or a no is 1 or 0.
pub fn as_stored(tree: &[u64]) -> bool
    requires { 14 ≤ length tree.now }
    ensures { result ≡ ltb (get_or tree.now 10 0) 2 }
{
    tree[10] < 2
}

// The words of a tree, stored.
#[tactic(auto, unfolding(crate::specs::Words::stored, crate::specs::Words::words_of))]
pub fn store(tree: &mut [u64], t: Tree)
    requires { 14 ≤ length tree.old }
    ensures { tree.new ≡ stored tree.old t }
{
    let info = t.info;
    put(
        tree,
        &[
            t.root as u64,
            t.used as u64,
            info.flags,
            info.node_size,
            info.key_size,
            info.val_size,
            info.longest_key,
            info.longest_val,
            info.key_count,
            info.node_count,
            t.by_id as u64,
            t.subtype,
            t.order.code,
            t.xid,
        ],
    );
}
