//! Worked examples: verdicts on small nodes and graphs.
ghost use Rattle.std.specs.Prelude.{◌≡◌, [], ◌∷◌, Some, None};
ghost use Rattle.vx_base.specs.declared.format.Format.TheVariants.{U8, S16};
ghost use Rattle.vx_base.specs.declared.policy.Policy.TheVariants.{Wrap};
ghost use Rattle.vx_base.specs.declared.border.Border.TheVariants.{Undefined};
ghost use Rattle.vx_base.specs.declared.function.Function.TheVariants.{AndBits, NotBits};
ghost use Rattle.vx_base.specs.declared.function.Function.TheVariants.{TableLookup};
ghost use Rattle.graph_verify.specs.declared.operand.Operand.TheVariants.{Image, Lut};
ghost use Rattle.graph_verify.specs.declared.verdict.Verdict.TheVariants.{MultipleWriters};
ghost use Rattle.graph_verify.specs.declared.verdict.Verdict.TheVariants.{InvalidGraph};
ghost use Rattle.graph_verify.specs.declared.verdict.Verdict.TheVariants.{InvalidLink};
ghost use Rattle.graph_verify.specs.declared.verdict.Verdict.TheVariants.{InvalidFormat};
ghost use Rattle.graph_verify.specs.declared.verdict.Verdict.TheVariants.{InvalidDimension};
ghost use Rattle.graph_verify.specs.declared.verdict.Verdict.TheVariants.{NoResources};
ghost use Rattle.graph_verify.specs.PartialDescriptions.{resolved_operand};
ghost use Rattle.graph_verify.specs.Verdict.{verdict_on, node_fault, verdict};
ghost use Rattle.vx_base.specs.Reference.{reference_to};
ghost use Rattle.graph_verify.specs.Examples.{not_to, and_to, adds, convert_to, image_operand};
ghost use Rattle.graph_verify.specs.Examples.{accumulate_to, virtual_of, example_operand};
ghost use Rattle.graph_verify.specs.Examples.{operand_except};

/// A node that reads its own output is a cycle. A node can't write both outputs to one object.
pub fn cells()
    ensures cycle { verdict_on (record {
      function = NotBits;
      border = Undefined;
      policy = Wrap;
      amount = 0;
      in1 = record { name = 1; slot = None };
      in2 = None;
      out1 = Some
          (record { name = 1; slot = None });
      out2 = None;
    })
        (record {
          in1 = Image (record { width = 4; height = 1; format = U8 });
          in2 = None;
          out1 =
              Some (Image (record { width = 4; height = 1; format = U8 }));
          out2 = None;
        })
        ≡ Some InvalidGraph }
    ensures two_writers { verdict_on (record {
      function = NotBits;
      border = Undefined;
      policy =
          Wrap;
      amount = 0;
      in1 = record { name = 1; slot = None };
      in2 = None;
      out1 = Some
          (record { name = 2; slot = None });
      out2 = Some (record { name = 2; slot = None });
    })
        (record {
          in1 = Image (record { width = 4; height = 1; format = U8 });
          in2 = None;
          out1 =
              Some (Image (record { width = 4; height = 1; format = U8 }));
          out2 = Some
              (Image (record { width = 4; height = 1; format = U8 }));
        }) ≡ Some MultipleWriters }
{}

/// Formats that a function takes, formats that it doesn't, and operands of equal and different
/// sizes.
pub fn operands()
    ensures fitting { node_fault AndBits
        (record {
          in1 = Image (record { width = 4; height = 1; format = U8 });
          in2 = Some
              (Image (record { width = 4; height = 1; format = U8 }));
          out1 = Some
              (Image (record { width = 4; height = 1; format = U8 }));
          out2 = None;
        }) ≡ None }
    ensures sizes { node_fault AndBits (record {
      in1 = Image
          (record { width = 4; height = 1; format = U8 });
      in2 = Some
          (Image (record { width = 4; height = 2; format = U8 }));
      out1 = Some
          (Image (record { width = 4; height = 1; format = U8 }));
      out2 = None;
    })
        ≡ Some InvalidDimension }
    ensures formats { node_fault NotBits
        (record {
          in1 = Image (record { width = 4; height = 1; format = S16 });
          in2 = None;
          out1 =
              Some (Image (record { width = 4; height = 1; format = S16 }));
          out2 = None;
        })
        ≡ Some InvalidFormat }
    ensures formats_first { node_fault NotBits
        (record {
          in1 = Image (record { width = 4; height = 1; format = S16 });
          in2 = None;
          out1 =
              Some (Image (record { width = 2; height = 1; format = S16 }));
          out2 = None;
        })
        ≡ Some InvalidFormat }
    ensures table { node_fault TableLookup
        (record {
          in1 = Image (record { width = 4; height = 1; format = U8 });
          in2 = Some
              (Lut U8);
          out1 = Some (Image (record { width = 4; height = 1; format = U8 }));
          out2 =
              None;
        }) ≡ None }
{}

/// Graphs that are refused, at least one for each verdict except `NoResources`. A graph with the
/// nodes of all these graphs is refused because an object has two writers. A graph without nodes
/// can run.
pub fn graphs()
    ensures writers { verdict 9 example_operand (not_to 1 2 ∷ not_to 3 2 ∷ [])
        ≡ Some MultipleWriters }
    ensures itself { verdict 9 example_operand (not_to 1 1 ∷ []) ≡ Some InvalidGraph }
    ensures ring { verdict 9 example_operand (not_to 6 7 ∷ not_to 7 8 ∷ not_to 8 6 ∷ [])
        ≡ Some InvalidGraph }
    ensures link { verdict 9 example_operand (not_to 6 2 ∷ []) ≡ Some InvalidLink }
    ensures format { verdict 9 example_operand (not_to 4 2 ∷ []) ≡ Some InvalidFormat }
    ensures size { verdict 9 example_operand (and_to 1 5 2 ∷ []) ≡ Some InvalidDimension }
    ensures all { verdict 9 example_operand (not_to 1 2 ∷ not_to 3 2 ∷ not_to 1 1 ∷ not_to 6 7
        ∷ not_to 7 8
        ∷ not_to 8 6 ∷ not_to 6 2 ∷ not_to 4 2 ∷ and_to 1 5 2 ∷ []) ≡ Some MultipleWriters }
    ensures none { verdict 9 example_operand [] ≡ None }
{}

/// Graphs that accumulate. Accumulating into an output doesn't count as reading it, but the output
/// must not be virtual.
pub fn sums()
    ensures once { verdict 9 example_operand (accumulate_to 1 4 ∷ []) ≡ None }
    ensures read { verdict 9 example_operand (convert_to 4 3 ∷ accumulate_to 1 4 ∷ []) ≡ None }
    ensures twice { verdict 9 example_operand (accumulate_to 1 4 ∷ accumulate_to 2 4 ∷ [])
        ≡ Some MultipleWriters }
    ensures itself { verdict 9 example_operand (accumulate_to 4 4 ∷ []) ≡ Some InvalidGraph }
    ensures to_virtual { verdict 9 example_operand (accumulate_to 1 6 ∷ []) ≡ Some InvalidLink }
    ensures to_bytes { verdict 9 example_operand (accumulate_to 1 2 ∷ []) ≡ Some InvalidFormat }
{}

/// If two nodes are faulty, the verdict is the fault of the node that was added first, even if that
/// node would run last.
pub fn earliest_added()
    ensures { verdict 9 example_operand (and_to 6 5 2 ∷ not_to 4 3 ∷ not_to 1 6 ∷ [])
        ≡ Some InvalidDimension }
{}

/// Two nodes linked by a virtual image of 2x2 pixels, which takes four bytes.
pub fn work()
    ensures little { verdict 3 (operand_except (virtual_of None) 2 2) (not_to 1 2 ∷ not_to 2 3 ∷ [])
        ≡ Some NoResources }
    ensures enough { verdict 4 (operand_except (virtual_of None) 2 2)
        (not_to 1 2 ∷ not_to 2 3 ∷ []) ≡ None }
{}

/// The output of Add, a virtual image with an open format, is resolved to S16. If its format is
/// declared as U8 instead, it stays U8. The graph is then refused, since Convert Bit Depth can't
/// convert U8 to U8.
pub fn open_formats()
    ensures found { resolved_operand (operand_except (virtual_of None) 1 1)
        (adds 1 3 2 ∷ convert_to 2 4 ∷ []) (reference_to 2) ≡ image_operand 1 1 S16 }
    ensures opened { verdict 9 (operand_except (virtual_of None) 1 1)
        (adds 1 3 2 ∷ convert_to 2 4 ∷ []) ≡ None }
    ensures declared { verdict 9 (operand_except (virtual_of (Some U8)) 1 1)
        (adds 1 3 2 ∷ convert_to 2 4 ∷ []) ≡ Some InvalidFormat }
{}
