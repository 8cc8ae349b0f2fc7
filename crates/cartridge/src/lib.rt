// Theorems alone: what a chain of calls leaves, and what a walk over its damage hands out. No code of its own.
