ghost use Rattle.std.specs.Prelude.{◌≡◌, IfOk, [], ◌∷◌, if◌then◌else◌};
ghost use Rattle.lfg_context.specs.Seen.{cubes_of_node};
ghost use Rattle.lfg_context.specs.Cubes.{in_cubes};

use std::alloc::{AllocError, Global};
use std::marker::Model;
use std::rc::Rc;

/// A set of assignments: a node of a reduced ordered diagram.
#[cycle(ctx)]
#[derive(Drop)]
pub struct Ctx {
    form: Form,
}

#[cycle(ctx)]
#[derive(Drop)]
enum Form {
    No,
    Yes,
    Node(Rc<Node>),
}

#[cycle(ctx)]
#[derive(Drop)]
struct Node {
    number: usize,
    choice: u32,
    children: Vec<Ctx>,
}

impl Model for Ctx {
    ghost use Rattle.lfg_context.specs.Seen.{Set};

    ghost Value = { Set };

    ghost use Rattle.lfg_context.specs.Forms.{set_of, HasSmallerChildren};

    ghost view = { λ x. set_of x.form };

    ghost invariant = { λ x. HasSmallerChildren x.form };

    ghost size = { λ x. x.0 };

    ghost use Rattle.lfg_context.specs.Depth.{depth_le};

    ghost size_decreases = { λ a h. depth_le a.form h };
}

impl Ctx {
    ghost use Rattle.lfg_context.specs.Forms.{AllBelow};

    /// The same set.
    pub fn share(&self) -> Result<Ctx, AllocError>
        ensures { IfOk result (λ x. x ≡ self.now) }
    {
        match &self.form {
            Form::No => Ok(Ctx { form: Form::No }),
            Form::Yes => Ok(Ctx { form: Form::Yes }),
            Form::Node(node) => {
                let node = node.clone()?;
                Ok(Ctx {
                    form: Form::Node(node),
                })
            }
        }
    }

    /// The number of its node.
    pub(crate) fn number(&self) -> usize
        ensures { result ≡ self.now.0 }
    {
        match &self.form {
            Form::No => 0,
            Form::Yes => 1,
            Form::Node(node) => node.number,
        }
    }

    pub(crate) fn terminal(full: bool) -> Ctx
        ensures { result ≡ (if full then (1, [] ∷ []) else (0, [])) }
    {
        if full {
            Ctx { form: Form::Yes }
        } else {
            Ctx { form: Form::No }
        }
    }

    pub(crate) fn node(
        alloc: Global,
        number: usize,
        choice: u32,
        children: Vec<Ctx>,
    ) -> Result<Ctx, AllocError>
        requires { AllBelow number children.items }
        ensures { IfOk result (λ x. x ≡ (number, cubes_of_node choice children.items)) }
    {
        let node = Rc::new(
            alloc,
            Node {
                number,
                choice,
                children,
            },
        )?;
        Ok(Ctx {
            form: Form::Node(node),
        })
    }
}
