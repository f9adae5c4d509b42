// Components by a property of their nodes, or of the clusters in them, which have the number of their root.
// `component` and `marks` are lent alone, since each call marks another array, and with n, since both are longer than a net has nodes. `Falling` is about an array as far as n, not about all of it.
ghost use Rattle.std.specs.Prelude.{◌≡◌, Bool, false, ℕ, ◌<◌, ◌≤◌, length, get_or};
ghost use Rattle.laws.specs.Sum.{any};
ghost use Rattle.clusters.specs.FirstPasses.{Falling, marked};

// Marks the component of each node below n that passes the test, at the component's lowest node, and answers whether one passes.
pub fn mark_components<F: Fn(usize) -> bool>(
    n: usize,
    component: &[usize],
    passes: F,
    marks: &mut [bool],
) -> bool
    requires in_bounds { (n ≤ length component.now) × (n ≤ length marks.old) }
    requires falling { Falling n component.now }
    requires callable { (i : ℕ) → i < n → F.pre passes i }
    ensures { (test : ℕ → Bool) → ((i : ℕ) (b : Bool) → i < n → F.post passes i b → b ≡ test i) →
        (result ≡ any n test) × ((k : ℕ) → k < n → get_or marks.new k false ≡ marked n component.now test k) }
{
    let mut some = false;
    for i in 0..n {
        // no node below i is in component i: the lowest node of a component is no higher than its nodes
        marks[i] = false;
        if passes(i) {
            marks[component[i]] = true;
            some = true;
        }
    }
    some
}
