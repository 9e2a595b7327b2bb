/// Why an output is not accepted for an input. Each pass says which outputs are of another form, and
/// what breaks a rule at a node.
#[derive(Clone, Copy, Debug, PartialEq, Eq)]
pub enum Fault {
    /// The output or the certificate is not of the form that the pass asks for.
    Shape,
    /// The lowest node that breaks a rule.
    Node(u16),
}
