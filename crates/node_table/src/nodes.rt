// Nodes of a table of node records, one at a time.
ghost use Rattle.std.specs.Prelude.{◌≡◌, ◌+◌, ◌*◌, ◌<◌, ◌≤◌, length};
ghost use Rattle.laws.specs.Lists.{puts};
ghost use Rattle.node_table.specs.Nodes.{node_in};

use reduction_spec::Node;

// Node i of words that have three a node.
fn node_of(words: &[u16], i: usize) -> Node
    requires { i * 3 + 2 < length words.now }
    ensures { result ≡ node_in words.now i }
{
    Node {
        height: words[i * 3],
        low: words[i * 3 + 1],
        high: words[i * 3 + 2],
    }
}

// Stores the first count nodes of the words from the front of the table.
pub fn fill(words: &[u16], nodes: &mut [Node], count: usize)
    requires { (count * 3 ≤ length words.now) × (count ≤ length nodes.old) }
    ensures { nodes.new ≡ puts count (node_in words.now) nodes.old }
{
    for i in 0..count {
        nodes[i] = node_of(words, i);
    }
}
