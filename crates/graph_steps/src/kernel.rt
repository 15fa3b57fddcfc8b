//! Runs the kernel of a node's function.
ghost use Rattle.std.specs.Prelude.{◌≡◌};
ghost use Rattle.vx_base.specs.Rectangle.{IsWithin};
ghost use Rattle.image_core.specs.Second.{second_object};
ghost use Rattle.image_core.specs.Target.{IsTarget, Writes};
ghost use Rattle.graph_steps.specs.Steps.{CanMake, kernel_image, held_image};

use crate::step::Step;
use image_core::{Image, ImageMut, SecondInput};
use pixel_kernels::{
    absolute_difference, accumulate, accumulate_square, add, bit_and, bit_not, bit_or, bit_xor,
    convert_depth, lookup, maximum, minimum, multiply, subtract, threshold,
};
use stat_kernels::integral;
use vx_base::{Function, Output};
use window_kernels::{box3, convolve, dilate3, erode3, gaussian3, median3, sobel3};

/// A step with its inputs.
#[derive(Drop)]
pub struct Kernel<'k, 'f, 's> {
    pub step: &'k Step,
    pub first: &'k Image<'f>,
    pub second: &'k SecondInput<'s>,
}

impl<'k, 'f, 's> Kernel<'k, 'f, 's> {
    /// Writes the output's rows and sets the output's valid rectangle. A step that accumulates adds
    /// to the old rows.
    pub fn run(&self, output: &mut ImageMut<'_>)
        requires target { IsTarget output.old }
        requires can { CanMake self.now.step.now self.now.first.now
            (second_object self.now.second.now) output.old.desc }
        requires room { IsWithin output.old.valid output.old.desc.width output.old.desc.height }
        ensures { Writes (kernel_image self.now (held_image output.old)) output.old output.new }
    {
        let node = &self.step.node;
        let (first, border, policy, amount) = (self.first, node.border, node.policy, node.amount);
        match (node.function, self.second) {
            (Function::NotBits, SecondInput::Nothing) => bit_not(first, output),
            (Function::AndBits, SecondInput::Image(second)) => bit_and(first, second, output),
            (Function::OrBits, SecondInput::Image(second)) => bit_or(first, second, output),
            (Function::XorBits, SecondInput::Image(second)) => bit_xor(first, second, output),
            (Function::Add, SecondInput::Image(second)) => add(first, second, output, policy),
            (Function::Subtract, SecondInput::Image(second)) => {
                subtract(first, second, output, policy)
            }
            (Function::Multiply, SecondInput::Image(second)) => {
                multiply(first, second, output, policy, amount)
            }
            (Function::AbsoluteDifference, SecondInput::Image(second)) => {
                absolute_difference(first, second, output)
            }
            (Function::MinPixel, SecondInput::Image(second)) => minimum(first, second, output),
            (Function::MaxPixel, SecondInput::Image(second)) => maximum(first, second, output),
            (Function::ConvertDepth, SecondInput::Nothing) => {
                convert_depth(first, output, policy, amount)
            }
            (Function::TableLookup, SecondInput::Lut(lut)) => lookup(first, output, lut),
            (Function::Threshold, SecondInput::Threshold(rule)) => threshold(first, output, *rule),
            (Function::Box, SecondInput::Nothing) => box3(first, output, border),
            (Function::Gaussian, SecondInput::Nothing) => gaussian3(first, output, border),
            (Function::Median, SecondInput::Nothing) => median3(first, output, border),
            (Function::Erode, SecondInput::Nothing) => erode3(first, output, border),
            (Function::Dilate, SecondInput::Nothing) => dilate3(first, output, border),
            (Function::Sobel, SecondInput::Nothing) => match self.step.which {
                Output::First => sobel3(first, Some(output), None, border),
                Output::Second => sobel3(first, None, Some(output), border),
            },
            (Function::Convolve, SecondInput::Convolution(matrix)) => {
                convolve(first, matrix, output, border)
            }
            (Function::Integral, SecondInput::Nothing) => integral(first, output),
            (Function::Accumulate, SecondInput::Nothing) => accumulate(first, output),
            (Function::AccumulateSquare, SecondInput::Nothing) => {
                accumulate_square(first, output, amount)
            }
            _ => unreachable!(),
        }
    }
}
